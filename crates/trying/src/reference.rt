// What 01 and 02 say of hits, of the map and of a listing, worked out for each cell by itself, and the table of refusals as they have
// it. Of the library only the types of a run and a source are used here, and no code.
use crate::numbers;
use scope::{Run, Source};

// A refusal: its number, and the place in its list of the source that it concerns, counted from 1, if it concerns one. It goes by the
// number of the tables and not by the library's reason, which is held to them.
#[derive(Clone, Copy, PartialEq, Eq)]
pub struct Refusal {
    pub number: u8,
    pub place: Option<u64>,
}

// What is to be said of a call: nothing against it, or its refusal.
pub type Judged = Result<(), Refusal>;

// The lists of a call's sources, as it is lent them: periods, weights, phases. They may be of unequal length, which is a fault.
// They stay three lists, and a run stays a parameter beside them, since that is how every map call takes them. They have no iterator of
// their own: std has none over three slices at once.
#[derive(Clone, Copy)]
pub struct Lists<'a> {
    pub periods: &'a [u32],
    pub weights: &'a [u32],
    pub phases: &'a [u32],
}

impl Lists<'_> {
    // How many there are: as many as periods.
    pub fn count(self) -> usize {
        self.periods.len()
    }

    // The source at a place of the lists, counted from 0.
    pub fn source(self, k: usize) -> Source {
        Source {
            period: numbers::at(self.periods, k),
            phase: numbers::at(self.phases, k),
        }
    }

    // Its weight.
    pub fn weight(self, k: usize) -> u32 {
        numbers::at(self.weights, k)
    }
}

// Source p with phase s hits cell (i, j) exactly when p divides T·j - i - s: when T·j + I/2 and i + I/2 + s leave the same remainder.
fn is_hit(run: Run, source: Source, cell: u64) -> bool {
    let window = u64::from(run.window);
    let line = u64::from(run.first).wrapping_add(cell.checked_div(window).unwrap_or(0));
    let tick = u64::from(run.interval).wrapping_mul(line);
    let later = cell
        .checked_rem(window)
        .unwrap_or(0)
        .wrapping_add(u64::from(source.phase));
    let p = u64::from(source.period);
    tick.wrapping_add(window / 2).checked_rem(p) == later.checked_rem(p)
}

// How many cells a run has: its window times its lines.
pub fn cells(run: Run) -> usize {
    let lines = run.last.wrapping_sub(run.first).wrapping_add(1);
    numbers::product(run.window, lines) as usize
}

// What the sources that hit a cell weigh together.
fn weight_at(run: Run, sources: Lists<'_>, cell: u64) -> u32 {
    (0..sources.count())
        .filter(|k| is_hit(run, sources.source(*k), cell))
        .fold(0u32, |sum, k| sum.wrapping_add(sources.weight(k)))
}

// Makes a map what it is to be after all sources are added: a walk over all cells.
pub fn expect_added(run: Run, sources: Lists<'_>, map: &mut [u8]) {
    for (cell, value) in map.iter_mut().enumerate() {
        let sum = u32::from(*value).wrapping_add(weight_at(run, sources, cell as u64));
        *value = sum.min(255) as u8;
    }
}

// Makes a map what the plain call is to make of it: the same, but from zeros, whatever it held.
pub fn expect_made(run: Run, sources: Lists<'_>, map: &mut [u8]) {
    map.fill(0);
    expect_added(run, sources, map);
}

// How many cells of a map are above 0.
pub fn count_above(map: &[u8]) -> usize {
    map.iter().filter(|value| **value != 0).count()
}

// How many cells of a run a source hits.
pub fn count_hits(run: Run, source: Source) -> usize {
    (0..cells(run) as u64)
        .filter(|cell| is_hit(run, source, *cell))
        .count()
}

// The first cell not below a start that a source hits, if there is one.
pub fn first_hit(run: Run, source: Source, start: u64) -> Option<u64> {
    (start..cells(run) as u64).find(|cell| is_hit(run, source, *cell))
}

// What a listing is to answer: the count written, and the next hit, if there is one.
#[derive(Clone, Copy, PartialEq, Eq)]
pub struct Listed {
    pub count: usize,
    pub next: Option<u64>,
}

// Makes a room what it is to be after a listing of the cells from a start on that a source hits.
pub fn expect_listing(run: Run, source: Source, start: u64, room: &mut [u64]) -> Listed {
    let mut count: usize = 0;
    let mut next = first_hit(run, source, start);
    for place in room {
        let Some(cell) = next else {
            break;
        };
        *place = cell;
        count = count.wrapping_add(1);
        next = first_hit(run, source, cell.wrapping_add(1));
    }
    Listed { count, next }
}

// The greatest common divisor of a and b, b above 0, by trying all numbers from b down.
pub fn greatest_common_divisor(a: u32, b: u32) -> u32 {
    (1..=b)
        .rev()
        .find(|d| a.is_multiple_of(*d) && b.is_multiple_of(*d))
        .unwrap_or(1)
}

// How long the file of so many cells is: block 0, and a block for each 504 cells that are begun.
pub fn file_length(cells: usize) -> usize {
    cells.div_ceil(504).wrapping_add(1).wrapping_mul(512)
}

// A refusal that concerns no source.
pub fn alone<T>(number: u8) -> Result<T, Refusal> {
    Err(Refusal {
        number,
        place: None,
    })
}

// A refusal that concerns the source at a place of a list, counted from 1.
pub fn at_place<T>(number: u8, place: u64) -> Result<T, Refusal> {
    Err(Refusal {
        number,
        place: Some(place),
    })
}

// The refusal with a number, if what it is given for is so.
pub fn when(wrong: bool, number: u8) -> Judged {
    if wrong { alone(number) } else { Ok(()) }
}

// 1: window odd, below 2 or above 4,096.
pub fn judge_window(window: u32) -> Judged {
    when(window % 2 == 1 || window == 0 || 4096 < window, 1)
}

// Whether a run breaks both line limits.
pub fn breaks_two(run: Run) -> bool {
    16777216 < run.last && run.last < run.first
}

// 1: the window; 17 and 18: the last line before the first, the last line above 16,777,216; 3: the interval.
pub fn judge_run(run: Run) -> Judged {
    judge_window(run.window)?;
    when(run.last < run.first, 17)?;
    when(16777216 < run.last, 18)?;
    when(run.interval == 0, 3)
}

// 4: period 0 or above 2,147,483,647.
pub fn judge_period(period: u32) -> Judged {
    when(period == 0 || 2147483647 < period, 4)
}

// 22: phase not below period.
fn judge_phase(source: Source) -> Judged {
    when(source.period <= source.phase, 22)
}

// 4 before 22: a source with no weight.
pub fn judge_source(source: Source) -> Judged {
    judge_period(source.period)?;
    judge_phase(source)
}

// 4 before 7 before 22: the period, then the weight 0 or above 255, then the phase.
fn judge_weighted(source: Source, weight: u32) -> Judged {
    judge_period(source.period)?;
    when(weight == 0 || 255 < weight, 7)?;
    judge_phase(source)
}

// 4 before 7 before 22, source by source, with the place of the source.
pub fn judge_sources(sources: Lists<'_>) -> Judged {
    for k in 0..sources.count() {
        if let Err(said) = judge_weighted(sources.source(k), sources.weight(k)) {
            return at_place(said.number, k as u64 + 1);
        }
    }
    Ok(())
}

// How many sources of a list are at fault.
pub fn count_at_fault(sources: Lists<'_>) -> usize {
    (0..sources.count())
        .filter(|k| judge_weighted(sources.source(*k), sources.weight(*k)).is_err())
        .count()
}
