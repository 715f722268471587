// Runs, cells, sources and their limits: document 01's words as types, and the tests that every call begins with.
// Every function is proved. No function here is a public operation: each is an inner step of the crates above.
#![tactic(auto)]

ghost use Rattle.std.specs.Prelude.{◌≡◌, ◌≤◌};
ghost use Rattle.scope.specs.Run.{ValidRun, run_with, cells_of, shift_of, to_run};
ghost use Rattle.scope.specs.declared.Place.TheVariants.{Nowhere};
ghost use Rattle.scope.specs.Inner.{IsBlock, to_block, at_source, verdict};
ghost use Rattle.scope.specs.Refusal.{◌when◌, number, complaint, window_tests, line_tests, run_tests, period_tests, phase_tests, source_tests};

// What a weight, and a cell of a map, is at most: `ceiling` of the specs. A cell is as wide as this number.
pub const CEILING: u8 = 255;

// A run: the window's width and the interval in ticks, the first and the last line. Lines run from 0. That a run is within the limits
// stays a clause where no source goes with it: the public operations take any run, and a struct for it would be opened at each step.
#[derive(Clone, Copy, PartialEq, Eq)]
pub struct Run {
    pub window: u32,
    pub interval: u32,
    pub first: u32,
    pub last: u32,
}

// A source, less its weight: it has an edge at its phase, and whole periods before and after it.
#[derive(Clone, Copy, PartialEq, Eq)]
pub struct Source {
    pub period: u32,
    pub phase: u32,
}

// A cell number of the run that a call is about; where the call is about a block, that block is its run. This and the next are two structs
// alike: document 01 names two tuple structs, so that neither number is taken for the other.
#[derive(Clone, Copy, PartialEq, Eq)]
pub struct RunCell(pub u64);

// A cell number of a block of that run, counted from the block's first line on.
#[derive(Clone, Copy, PartialEq, Eq)]
pub struct BlockCell(pub u64);

// Why a call is refused: the table of refusal numbers, each row by what is wrong.
#[derive(Clone, Copy, PartialEq, Eq)]
pub enum Reason {
    // The window is odd, below 2 or above 4,096.
    Window,
    // The last line is before the first.
    LineOrder,
    // The last line is above 16,777,216.
    LastLine,
    // The interval is 0.
    Interval,
    // The period is 0 or above 2,147,483,647.
    Period,
    // The remainder is not below the period.
    Remainder,
    // The window is wider than the period.
    WiderThanPeriod,
    // The weight is 0 or above the ceiling.
    Weight,
    // The starting cell is not in the run.
    Start,
    // The listing room is empty, or the map or the file room is not of the exact length.
    Room,
    // The lists of periods, of weights and of phases are not all of one length.
    Lists,
    // The text is not of the form.
    Text,
    // The text has too many sources or cells.
    TooMany,
    // The saved file has no whole number of blocks, none, or not as many as its run needs.
    FileBlocks,
    // A block of the saved file has a wrong number or check.
    Check,
    // A version, a spare byte or the filling of the saved file is not as laid down.
    Layout,
    // The threshold is 0.
    Threshold,
    // The guard reaches outside the window or is upside down.
    Guard,
    // The room holds fewer stretches than there are.
    StretchRoom,
    // The phase is not below the period.
    Phase,
}

// What a refusal concerns. An enum, though `Option<u64>` has its shape: document 01 says a place enum.
#[derive(Clone, Copy, PartialEq, Eq)]
pub enum Place {
    // No source of a list.
    Nowhere,
    // The source at this place of its list, counted from 1.
    AtSource(u64),
}

// A refusal: why, and what it concerns.
#[derive(Clone, Copy, PartialEq, Eq)]
pub struct Refusal {
    pub reason: Reason,
    pub place: Place,
}

// The number that a reason has in the table.
impl From<Reason> for u8 {
    ghost from_gives = { λ reason told. told ≡ number reason };

    fn from(reason: Reason) -> u8 {
        match reason {
            Reason::Window => 1,
            Reason::LineOrder => 17,
            Reason::LastLine => 18,
            Reason::Interval => 3,
            Reason::Period => 4,
            Reason::Remainder => 5,
            Reason::WiderThanPeriod => 6,
            Reason::Weight => 7,
            Reason::Start => 8,
            Reason::Room => 9,
            Reason::Lists => 10,
            Reason::Text => 11,
            Reason::TooMany => 12,
            Reason::FileBlocks => 13,
            Reason::Check => 14,
            Reason::Layout => 15,
            Reason::Threshold => 19,
            Reason::Guard => 20,
            Reason::StretchRoom => 21,
            Reason::Phase => 22,
        }
    }
}

impl Reason {
    // Inner step. The refusal for this reason that concerns no source of a list.
    pub fn alone(self) -> Refusal
        ensures { result ≡ record { reason = self; place = Nowhere } }
    {
        Refusal {
            reason: self,
            place: Place::Nowhere,
        }
    }

    // Inner step. One test: it is failed, for this reason, when `wrong` is so.
    pub fn when(self, wrong: bool) -> Result<(), Refusal>
        ensures { result ≡ verdict (complaint (self when wrong)) }
    {
        if wrong { Err(self.alone()) } else { Ok(()) }
    }
}

// Inner step. What tests came to, as tests of the source at a place of a list, counted from 1: that is a refusal's place then.
// A match, and no `map_err`: tried, and what its closure gives was not proved.
pub fn at_source(place: u64, said: Result<(), Refusal>) -> Result<(), Refusal>
    ensures { result ≡ at_source place said }
{
    match said {
        Ok(()) => Ok(()),
        Err(refusal) => Err(Refusal {
            reason: refusal.reason,
            place: Place::AtSource(place),
        }),
    }
}

// Inner step. What the table says of a window.
pub fn judge_window(window: u32) -> Result<(), Refusal>
    ensures { result ≡ verdict (complaint (window_tests window)) }
{
    Reason::Window.when(window % 2 == 1)?;
    Reason::Window.when(window < 2)?;
    Reason::Window.when(4096 < window)
}

// What the table says of a first and a last line: of the order of the two, then of the last line.
fn judge_lines(first: u32, last: u32) -> Result<(), Refusal>
    ensures { result ≡ verdict (complaint (line_tests first last)) }
{
    Reason::LineOrder.when(last < first)?;
    Reason::LastLine.when(16777216 < last)
}

// Inner step. What the table says of a run: its window, then its lines, then its interval.
pub fn judge_run(run: Run) -> Result<(), Refusal>
    ensures { result ≡ verdict (complaint (run_tests run)) }
{
    judge_window(run.window)?;
    judge_lines(run.first, run.last)?;
    Reason::Interval.when(run.interval == 0)
}

// Inner step. What the table says of a period.
pub fn judge_period(period: u32) -> Result<(), Refusal>
    ensures { result ≡ verdict (complaint (period_tests period)) }
{
    Reason::Period.when(period == 0)?;
    Reason::Period.when(2147483647 < period)
}

// Inner step. What the table says of a source's phase.
pub fn judge_phase(source: Source) -> Result<(), Refusal>
    ensures { result ≡ verdict (complaint (phase_tests source)) }
{
    Reason::Phase.when(source.period <= source.phase)
}

// Inner step. What the table says of a source where no weight is given: of its period first, then of its phase. By std's `and`, which takes
// the first refusal, and no `?`: a wrong order of two values is refused for what it says, one of two exits for its form.
pub fn judge_source(source: Source) -> Result<(), Refusal>
    ensures { result ≡ verdict (complaint (source_tests source)) }
{
    judge_period(source.period).and(judge_phase(source))
}

impl Run {
    // Inner step. The run with these four numbers, in the order of a text and of a file.
    pub fn new(window: u32, interval: u32, first: u32, last: u32) -> Run
        ensures { result ≡ run_with window interval first last }
    {
        Run {
            window,
            interval,
            first,
            last,
        }
    }
}

// Inner step. How many cells a run within the limits has: at most 4,096 on each of its lines. (Widened by `as`, as in crate vectors.)
pub fn cells(run: Run) -> u64
    requires { ValidRun run }
    ensures { result ≡ cells_of run }
{
    run.window as u64 * (run.last - run.first + 1) as u64
}

// "(block's first line - run's first line)·I": what turns a block's cell number into the run's. Run and block stay two, each with its own
// facts: a struct of them would serve this and the two below, all of one shift.
fn block_shift(run: Run, block: Run) -> u64
    requires { ValidRun run × IsBlock run block × ValidRun block }
    ensures { result ≡ shift_of run block }
{
    (block.first - run.first) as u64 * run.window as u64
}

impl BlockCell {
    // Inner step. The run's number of a cell of one of its blocks, or of the end of the block: the block's shift is added.
    pub fn in_run(self, run: Run, block: Run) -> RunCell
        requires { ValidRun run × IsBlock run block × ValidRun block × self.0 ≤ cells_of block }
        ensures { result ≡ to_run run block self }
    {
        let shift = block_shift(run, block);
        RunCell(self.0 + shift)
    }
}

impl RunCell {
    // Inner step. The number that a cell of the run has in a block that does not start after it: the block's shift is taken away.
    pub fn in_block(self, run: Run, block: Run) -> BlockCell
        requires { ValidRun run × IsBlock run block × ValidRun block × shift_of run block ≤ self.0 }
        ensures { result ≡ to_block run block self }
    {
        let shift = block_shift(run, block);
        BlockCell(self.0 - shift)
    }
}
