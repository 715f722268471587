// The map: every cell's sum of the weights of the sources that hit it, up to the ceiling.
// Every function is proved. `make_map` and `add_to_map` are the public operations here, and they ask nothing of their caller.
#![tactic(auto)]

ghost use Rattle.std.specs.Prelude.{◌≡◌, [], ◌∷◌, min, ◌+◌, ◌-◌, ◌≤◌, ◌<◌, ◌^◌, length};
ghost use Rattle.rooms.specs.Lists.{zeros};
ghost use Rattle.scope.specs.Run.{ValidRun, ValidSource, ceiling, cells_of};
ghost use Rattle.scope.specs.Refusal.{complaint};
ghost use Rattle.scope.specs.Inner.{IsBlock};
ghost use Rattle.sources.specs.Entry.{entries_of};
ghost use Rattle.sources.specs.Inner.{granted};
ghost use Rattle.sources.specs.Lists.{ValidEntry};
ghost use Rattle.map.specs.Sum.{capped, raised};
ghost use Rattle.map.specs.Promise.{map_tests, added, MakingPromise, AddingPromise};
ghost use Rattle.map.specs.Inner.{ValidCall, Crossing, AddsLeft, start_of, CallFrom, chosen, spaced};

use scope::{BlockCell, Reason, Refusal, Run};
use search::Asked;
use sources::{Entry, Sources};
use walk::{LineHit, Walk};

// What the sources are added to. A closure that prepares a part of the map is no plainer: four contracts would have to say what it makes
// of every part, and that it may do so part by part, where `start_of` says it once.
#[derive(Clone, Copy)]
enum Start {
    // A clean map, whatever the cells hold.
    Clean,
    // The map as it was lent.
    AsLent,
}

// Maps longer than this are gone through in blocks by the sources with short periods.
const LONG: usize = 262144;
// So many bytes of the map are in a block, at most.
const BLOCK: u32 = 65536;
// A source with a shorter period comes back to the same bytes of memory so often that blocks pay.
const SHORT: u32 = 2048;
// One more than the longest period: below it are all.
const PERIODS: u32 = 2147483648;

// A cell's new value: its old one and the weight, or the ceiling if that is more. The ceiling is the largest number that a cell holds.
fn plus(cell: u8, weight: u8) -> u8
    ensures { result ≡ capped ceiling (cell + weight) }
{
    cell.saturating_add(weight)
}

// Adds a weight to the cells of a line at the distances start, start + period, and so on. Counted by hand: a `for` over the distances by
// `step_by` was tried, and is slower (run side by side on x86-64: 2 to 8 % more instructions, a fifth more time at few hits; the aim beside
// C at a window of 64 was last met on Arm, by one part in a hundred).
fn add_line(line: &mut [u8], start: usize, period: usize, weight: u8)
    requires { (start < period) × (period < 2 ^ 32) }
    ensures { line.new ≡ raised ceiling (spaced period start weight) 0 line.old }
{
    let mut d = start;
    while d < line.len() {
        line[d] = plus(line[d], weight);
        d += period;
    }
}

// Adds a source to the map of a run line by line. From a line to the next the source's first distance grows by the
// interval: that is one sum, less a period if it comes to one or more, and no division. The lines are cut out of the map by number, since
// of a map gone through by `chunks_mut` nothing is known once it is written.
fn add_rows(run: Run, entry: Entry, map: &mut [u8])
    requires { ValidRun run × ValidEntry ceiling entry × (length map.old ≡ cells_of run) }
    ensures { map.new ≡ added ceiling run (entry ∷ []) map.old }
{
    let window = run.window as usize;
    let period = entry.source.period as usize;
    let weight = entry.weight as u8;
    let step = run.interval as usize % period;
    let asked = Asked {
        run,
        source: entry.source,
    };
    let mut start = asked.distance(u64::from(run.first)) as usize;
    for line in 0..map.len() / window {
        let base = line * window;
        add_line(&mut map[base..base + window], start, period, weight);
        start += step;
        if period <= start {
            start -= period;
        }
    }
}

// Adds a weight at a hit, and then at every hit that the walk's step to the left alone leads to; what comes back is the hit
// after those, which may lie past the map. A loop of its own, since the compiler keeps a branch here and not a chain of selects. No
// range has the cells, here and in `add_hits`: each hit says where the next is.
fn add_leftward(walk: Walk, from: LineHit, weight: u8, map: &mut [u8]) -> LineHit
    requires { Crossing walk from map.old }
    ensures { AddsLeft walk weight from result map.old map.new }
{
    let mut at = from;
    let mut cell = at.cell.0 as usize;
    while cell < map.len() {
        map[cell] = plus(map[cell], weight);
        if at.offset < walk.low {
            return walk.next(at);
        }
        at = walk.next(at);
        cell = at.cell.0 as usize;
    }
    at
}

// Adds a source with at most one hit on a line to the map of a run, hit by hit. The vectors are worked out once, and only where
// the run has a hit; from a hit to the next it is then at most two comparisons, and two sums, however many lines lie between.
fn add_hits(run: Run, entry: Entry, map: &mut [u8])
    requires { ValidRun run × ValidEntry ceiling entry × (run.window ≤ entry.source.period) × (length map.old ≡ cells_of run) }
    ensures { map.new ≡ added ceiling run (entry ∷ []) map.old }
{
    let asked = Asked {
        run,
        source: entry.source,
    };
    let weight = entry.weight as u8;
    let mut at = walk::begin(asked);
    let mut cell = at.cell.0 as usize;
    if map.len() <= cell {
        return;
    }
    let walk = walk::plan(asked);
    while cell < map.len() {
        at = add_leftward(walk, at, weight, map);
        cell = at.cell.0 as usize;
    }
}

// Adds one source to the map of a run.
fn add_source(run: Run, entry: Entry, map: &mut [u8])
    requires { ValidRun run × ValidEntry ceiling entry × (length map.old ≡ cells_of run) }
    ensures { map.new ≡ added ceiling run (entry ∷ []) map.old }
{
    if entry.source.period < run.window {
        add_rows(run, entry, map);
    } else {
        add_hits(run, entry, map);
    }
}

// Adds the sources with low ≤ period < high to the map of a run, one after the other. Run, entry or sources, and map stay three, here and in
// the steps around it: what is known of them is of the lent map too, and a struct would have to be lent anew at each step.
fn add_chosen(run: Run, sources: &Sources, low: u32, high: u32, map: &mut [u8])
    requires { ValidCall run sources.now map.old }
    ensures { map.new ≡ added ceiling run (chosen low high sources.now) map.old }
{
    for k in 0..sources.len() {
        let entry = sources.entry(k);
        if low <= entry.source.period && entry.source.period < high {
            add_source(run, entry, map);
        }
    }
}

// Clears a map. A loop where `fill` would do: two wrong programs are edits of it (`first_cell_left`, `every_second_cell_left`), and beside
// `fill` a right program of the form of theirs would be refused as well. LLVM makes a `memset` of it.
fn clear(map: &mut [u8])
    ensures { map.new ≡ zeros (length map.old) }
{
    for at in 0..map.len() {
        map[at] = 0;
    }
}

// Clears the cells for a clean start, and otherwise leaves them as they were lent.
fn prepare(start: Start, map: &mut [u8])
    ensures { map.new ≡ start_of start map.old }
{
    if let Start::Clean = start {
        clear(map);
    }
}

// Adds the sources with period < high to what the map of a run starts from.
fn add_below(run: Run, sources: &Sources, high: u32, start: Start, map: &mut [u8])
    requires { ValidCall run sources.now map.old }
    ensures { map.new ≡ added ceiling run (chosen 0 high sources.now) (start_of start map.old) }
{
    prepare(start, map);
    add_chosen(run, sources, 0, high, map);
}

// The block of a run that starts at a line and has so many lines, or as many as the run has from there on.
fn block_from(run: Run, first: u32, lines: u32) -> Run
    requires { ValidRun run × (run.first ≤ first) × (first ≤ run.last) × (1 ≤ lines) }
    ensures { IsBlock run result × (result.first ≡ first) × (first ≤ result.last) × (result.last ≡ min run.last (first + (lines - 1))) }
{
    let last = run.last.min(first.saturating_add(lines - 1));
    Run::new(run.window, run.interval, first, last)
}

// Adds the sources with period < high to what the map of a run starts from, one block of so many lines after the other. For a
// clean start a block is cleared when its turn comes, so that it is still in the cache when the sources are added to it.
fn add_blocks(run: Run, sources: &Sources, high: u32, lines: u32, start: Start, map: &mut [u8])
    requires { ValidCall run sources.now map.old × (1 ≤ lines) }
    ensures { map.new ≡ added ceiling run (chosen 0 high sources.now) (start_of start map.old) }
{
    for first in (run.first..run.last + 1).step_by(lines as usize) {
        let block = block_from(run, first, lines);
        let from = BlockCell(0).in_run(run, block);
        let to = BlockCell(scope::cells(block)).in_run(run, block);
        let part = &mut map[from.0 as usize..to.0 as usize];
        add_below(block, sources, high, start, part);
    }
}

// Adds all sources to what the map of a run starts from: in blocks those with short periods, where the map is long, and in one go the
// others. The cells do not depend on which way a source goes, only the time.
fn add_all(run: Run, sources: &Sources, start: Start, map: &mut [u8])
    requires { ValidCall run sources.now map.old }
    ensures { map.new ≡ added ceiling run sources.now (start_of start map.old) }
{
    if LONG < map.len() && sources.shortest().is_some_and(|period| period < SHORT) {
        add_blocks(run, sources, SHORT, BLOCK / run.window, start, map);
        add_chosen(run, sources, SHORT, PERIODS, map);
    } else {
        add_below(run, sources, PERIODS, start, map);
    }
}

// The sources of a map call, or what the table says of the call: of the run first, then of the lists and each source, then of the map's
// length.
fn judge<'a>(
    run: Run,
    periods: &'a [u32],
    weights: &'a [u32],
    phases: &'a [u32],
    map: &[u8],
) -> Result<Sources<'a>, Refusal>
    ensures { result ≡ granted (complaint (map_tests ceiling run periods.now weights.now phases.now map.now)) (entries_of periods.now weights.now phases.now) }
{
    scope::judge_run(run)?;
    let sources = sources::judge_lists(periods, weights, phases)?;
    Reason::Room.when(map.len() as u64 != scope::cells(run))?;
    Ok(sources)
}

// Both map calls: refused as `judge` says, before the first store, or else all sources are added to what the map starts from.
fn map_call(
    run: Run,
    periods: &[u32],
    weights: &[u32],
    phases: &[u32],
    start: Start,
    map: &mut [u8],
) -> Result<(), Refusal>
    ensures { CallFrom start run periods.now weights.now phases.now map.old result map.new }
{
    let sources = judge(run, periods, weights, phases, map)?;
    add_all(run, &sources, start, map);
    Ok(())
}

// Public operation, the plain map call. Makes the map of a run: every cell becomes the sum of the weights of all listed sources that hit
// it, up to the ceiling, whatever it held. Refused, in this order: 1, 17, 18, 3 for the run, 10 for lists of unequal length, 4, 7 or 22 for
// the first source at fault, with its place, 9 for a map not of the run's length. Refused, it has not cleared the map. This and the
// adding call are two functions of one form: both are public operations, and C calls each.
pub fn make_map(
    run: Run,
    periods: &[u32],
    weights: &[u32],
    phases: &[u32],
    map: &mut [u8],
) -> Result<(), Refusal>
    ensures { MakingPromise run periods.now weights.now phases.now map.old result map.new }
{
    map_call(run, periods, weights, phases, Start::Clean, map)
}

// Public operation, the adding call. Adds onto a lent map of a run: every cell gains the weights of all listed sources that hit it, up to
// the ceiling. Refused as the plain call is.
pub fn add_to_map(
    run: Run,
    periods: &[u32],
    weights: &[u32],
    phases: &[u32],
    map: &mut [u8],
) -> Result<(), Refusal>
    ensures { AddingPromise run periods.now weights.now phases.now map.old result map.new }
{
    map_call(run, periods, weights, phases, Start::AsLent, map)
}
