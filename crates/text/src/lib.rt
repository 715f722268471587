// The text that the list program reads: a run and its sources, or the refusal.
// Every function is proved. `read_text` is the one public operation here, and it asks nothing of its caller.
#![tactic(auto)]

ghost use Rattle.std.specs.Prelude.{◌≡◌, ◌+◌, ◌<◌, ◌≤◌, ◌^◌};
ghost use Rattle.sources.specs.Entry.{entry_with};
ghost use Rattle.text.specs.Promise.{most_sources, sources_in, TextPromise};
ghost use Rattle.text.specs.Inner.{no_source_yet, one_more, SourceAt, filled, SourcesAt, RunAt};

use scope::{Reason, Refusal, Run, Source};
use sources::{Entry, Sources};

// A text has at most so many bytes,
const LONGEST: usize = 4096;
// so many sources,
const SOURCES: usize = 64;
// and a run of so many cells.
const CELLS: u64 = 65536;

// What a text says: a run, and how many sources there are, their periods, weights and phases at the beginning of the three lists; all
// the rest is 0. They are three lists with a count beside them, because the calls of crate map, which C calls too, are lent three lists,
// and because there is no heap.
#[derive(Clone, Copy)]
pub struct Input {
    pub run: Run,
    pub count: usize,
    pub periods: [u32; SOURCES],
    pub weights: [u32; SOURCES],
    pub phases: [u32; SOURCES],
}

impl Input {
    // A run, and no source.
    #[tactic(auto, unfolding(rooms::specs::Lists::zeros))]
    fn new(run: Run) -> Input
        ensures { result ≡ no_source_yet run }
    {
        Input {
            run,
            count: 0,
            periods: [0; SOURCES],
            weights: [0; SOURCES],
            phases: [0; SOURCES],
        }
    }

    // One source more: it is counted, and stored where there is room for it.
    fn add(&mut self, entry: Entry)
        requires { self.old.count + 1 < 2 ^ 64 }
        ensures { self.new ≡ one_more self.old entry }
    {
        let k = self.count;
        rooms::put(&mut self.periods, k, entry.source.period);
        rooms::put(&mut self.weights, k, entry.weight);
        rooms::put(&mut self.phases, k, entry.source.phase);
        self.count = k + 1;
    }

    // Inner step. The list of the sources.
    pub fn sources(&self) -> Sources<'_>
        requires { self.now.count ≤ most_sources }
        ensures { result ≡ sources_in self.now }
    {
        let count = self.count;
        Sources::new(
            &self.periods[..count],
            &self.weights[..count],
            &self.phases[..count],
        )
    }
}

// The source with these three numbers, in the order of a line.
fn entry_with(period: u32, weight: u32, phase: u32) -> Entry
    ensures { result ≡ entry_with period weight phase }
{
    let source = Source { period, phase };
    Entry { source, weight }
}

// The source that a `src` line means, and where that line ends. A line without a phase means phase 0. Lines are taken apart by let .. else,
// with the refusal returned: document 01's form for what a text is read by.
fn read_source(text: &[u8], at: usize) -> Result<(Entry, usize), Reason>
    ensures { SourceAt text.now at result }
{
    let mut phased = [0; 3];
    if let Ok(next) = words::read_line(text, at, b"src", &mut phased, Reason::Text) {
        let [period, weight, phase] = phased;
        return Ok((entry_with(period, weight, phase), next));
    }
    let mut numbers = [0; 2];
    let Ok(next) = words::read_line(text, at, b"src", &mut numbers, Reason::Text) else {
        return Err(Reason::Text);
    };
    let [period, weight] = numbers;
    Ok((entry_with(period, weight, 0), next))
}

// Adds the sources of the `src` lines from `at` on to an input that has a run alone, if the text ends with them: all are counted, and as many
// are stored as there is room for. No `run` line need stand before them. The input is lent: in a `Result` it would be copied at each step that
// hands it on. (let .. else: as in `read_source`.)
fn read_sources(text: &[u8], at: usize, input: &mut Input) -> Result<(), Reason>
    requires { input.old ≡ no_source_yet input.old.run }
    ensures { SourcesAt text.now at input.old.run (filled result input.new) }
{
    let mut next = at;
    // A line tells where it ends, so that no range and no iterator counts the turns.
    while next < text.len() {
        let Ok((entry, end)) = read_source(text, next) else {
            return Err(Reason::Text);
        };
        input.add(entry);
        next = end;
    }
    Ok(())
}

// The run that the first line of a text says, and where that line ends; a text that is too long is refused. (let .. else: as in
// `read_source`.)
fn read_run(text: &[u8]) -> Result<(Run, usize), Reason>
    ensures { RunAt text.now result }
{
    if LONGEST < text.len() {
        return Err(Reason::Text);
    }
    let mut numbers = [0; 4];
    let Ok(at) = words::read_line(text, 0, b"run", &mut numbers, Reason::Text) else {
        return Err(Reason::Text);
    };
    let [window, interval, first, last] = numbers;
    Ok((Run::new(window, interval, first, last), at))
}

// Public operation. The run and the sources that a text has, or the refusal.
// All lines are read before the first number is judged: what is not of the form comes before what is not within the limits.
// Refused, in this order: 11 for the form, 1, 17, 18, 3 for the run, 12 for too many sources or cells, 4, 7 or 22 for the first
// source at fault, with its place.
pub fn read_text(text: &[u8]) -> Result<Input, Refusal>
    ensures { TextPromise text.now result }
{
    let Ok((run, at)) = read_run(text) else {
        return Err(Reason::Text.alone());
    };
    let mut input = Input::new(run);
    if let Err(reason) = read_sources(text, at, &mut input) {
        return Err(reason.alone());
    }
    // By `and`, as in scope's `judge_source`.
    scope::judge_run(input.run).and(Reason::TooMany.when(SOURCES < input.count))?;
    Reason::TooMany.when(CELLS < scope::cells(input.run))?;
    input.sources().judge()?;
    Ok(input)
}
