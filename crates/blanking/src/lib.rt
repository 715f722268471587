// The blanking list of a map: the stretches of lines that each have a guard cell at or above a threshold.
// Every function is proved. `list_stretches` is the one public operation here, and it asks nothing of its caller.
#![tactic(auto)]

ghost use Rattle.std.specs.Prelude.{◌≡◌, ℕ, true, false, ◌↔◌, ◌+◌, ◌-◌, ◌/◌, ◌≤◌, pos, ◌+ℤ◌};
ghost use Rattle.std.specs.Iterator.{at_most};
ghost use Rattle.scope.specs.Refusal.{complaint};
ghost use Rattle.scope.specs.Inner.{verdict};
ghost use Rattle.blanking.specs.Promise.{guard_tests, asked_tests, BlankingPromise};
ghost use Rattle.blanking.specs.Inner.{Within, Guarded, Reaches, NextLine, Fits, Writes};

use scope::{Reason, Refusal, Run};

// A guard part of the window: its lowest and its highest offset, which both belong to it.
#[derive(Clone, Copy)]
pub struct Guard {
    pub lowest: i64,
    pub highest: i64,
}

// A stretch of consecutive lines: its first and its last, which both belong to it.
#[derive(Clone, Copy)]
pub struct Stretch {
    pub first: u32,
    pub last: u32,
}

// What a call asks, where it is in order: the run, its map, the threshold and the guard.
#[derive(Clone, Copy)]
struct Asked<'a> {
    run: Run,
    map: &'a [u8],
    threshold: u8,
    guard: Guard,
    ghost in_order: { Guarded run map.now threshold guard },
}

// The stretches of a run that begin at a line or later, one after the other.
#[derive(Clone, Copy)]
struct StretchesFrom<'a> {
    asked: Asked<'a>,
    line: u32,
    ghost begun: { asked.run.first ≤ line },
    ghost near: { line ≤ asked.run.last + 2 },
}

// So many cells are looked at in one go: as many as a vector register holds.
const GROUP: usize = 16;
// And so many of those after the last of these groups: guards of 4, 8 or 12 cells have no others.
const FOUR: usize = 4;

// What the table says of a guard: whether it reaches outside the window, to the left or to the right, or is upside down.
fn judge_guard(window: u32, guard: Guard) -> Result<(), Refusal>
    ensures { result ≡ verdict (complaint (guard_tests window guard)) }
{
    let half = i64::from(window / 2);
    Reason::Guard.when(guard.lowest < -half)?;
    Reason::Guard.when(half <= guard.highest)?;
    Reason::Guard.when(guard.highest < guard.lowest)
}

// What the tests come to that need no look at the cells: the run, the threshold, the guard, the map's length.
fn judge(run: Run, map: &[u8], threshold: u8, guard: Guard) -> Result<(), Refusal>
    ensures { result ≡ verdict (complaint (asked_tests run map.now threshold guard)) }
{
    scope::judge_run(run)?;
    Reason::Threshold.when(threshold == 0)?;
    judge_guard(run.window, guard)?;
    Reason::Room.when(map.len() as u64 != scope::cells(run))
}

// How far an offset of the window lies from the window's left edge.
fn distance(window: u32, offset: i64) -> usize
    requires { Within window offset }
    ensures { offset +ℤ pos (window / 2) ≡ pos result }
{
    (offset + i64::from(window / 2)) as usize
}

// Whether one of a group of cells is at or above the threshold. Each of them is looked at, also after one that is: of that the compiler
// makes a few vector instructions, where an `any` would leave the group at the first. A slice, so that groups of any length share it; inlined,
// so that the compiler sees the length.
#[inline(always)]
fn group_reaches(group: &[u8], threshold: u8) -> bool
    ensures { (result ≡ true) ↔ Reaches group.now threshold }
{
    group
        .iter()
        .fold(false, |reached, cell| reached | (threshold <= *cell))
}

// The same of fewer cells than a group has: four at a time, and the last up to three one by one.
#[inline(always)]
fn rest_reaches(rest: &[u8], threshold: u8) -> bool
    ensures { (result ≡ true) ↔ Reaches rest.now threshold }
{
    let (fours, last) = rest.as_chunks::<FOUR>();
    fours.iter().any(|four| group_reaches(four, threshold))
        || last.iter().any(|cell| threshold <= *cell)
}

// Whether one of these cells is at or above the threshold. They are looked at in groups, and no further than to the first group that
// has one; then those after the last group.
#[inline(always)]
fn reaches(cells: &[u8], threshold: u8) -> bool
    ensures { (result ≡ true) ↔ Reaches cells.now threshold }
{
    let (groups, rest) = cells.as_chunks::<GROUP>();
    groups.iter().any(|group| group_reaches(group, threshold)) || rest_reaches(rest, threshold)
}

impl<'a> Asked<'a> {
    ghost use Rattle.blanking.specs.InnerAsking.{Blanks};

    // Whether a line of the run is blanked: of its cells those of the guard alone are looked at.
    #[inline(always)]
    fn is_blanked(&self, line: u32) -> bool
        requires { (self.now.run.first ≤ line) × (line ≤ self.now.run.last) }
        ensures { (result ≡ true) ↔ Blanks self.now line }
    {
        let Asked {
            run,
            map,
            threshold,
            guard,
        } = *self;
        let base = (line - run.first) as usize * run.window as usize;
        let from = base + distance(run.window, guard.lowest);
        let end = base + distance(run.window, guard.highest) + 1;
        reaches(&map[from..end], threshold)
    }

    // The first line from `line` on that is blanked, where the run has one. This, the next and `next` below are inlined, so that what they go by
    // is worked out once and not for each stretch. Loops, since std's `find` would be called, from the counting and from the writing.
    #[inline(always)]
    fn next_blanked(&self, line: u32) -> Option<u32>
        requires { self.now.run.first ≤ line }
        ensures { NextLine self.now.run.last (Blanks self.now) line true result }
    {
        for blanked in line..self.run.last + 1 {
            if self.is_blanked(blanked) {
                return Some(blanked);
            }
        }
        None
    }

    // The first line from `line` on that is not blanked, where the run has one.
    #[inline(always)]
    fn next_clear(&self, line: u32) -> Option<u32>
        requires { self.now.run.first ≤ line }
        ensures { NextLine self.now.run.last (Blanks self.now) line false result }
    {
        for clear in line..self.run.last + 1 {
            if !self.is_blanked(clear) {
                return Some(clear);
            }
        }
        None
    }

    // The stretches of the run, from its first line on.
    fn stretches(&self) -> StretchesFrom<'a>
        ensures asks { result.asked ≡ self.now }
        ensures begins { result.line ≡ self.now.run.first }
    {
        StretchesFrom {
            asked: *self,
            line: self.run.first,
        }
    }

    // Writes the stretches, the first and the last line of each, into a room that holds them all; by number, since of a room gone through by
    // `chunks_mut` nothing is known once it is written.
    fn write_stretches(&self, room: &mut [u32])
        requires { Fits (Blanks self.now) room.old }
        ensures { Writes (Blanks self.now) room.old room.new }
    {
        for (k, stretch) in self.stretches().enumerate() {
            room[2 * k] = stretch.first;
            room[2 * k + 1] = stretch.last;
        }
    }
}

// The line after a stretch is known not to be blanked, so that the next begins two lines on or later.
impl Iterator for StretchesFrom<'_> {
    ghost use Rattle.blanking.specs.InnerAsking.{Gives};

    type Item = Stretch;

    ghost next_gives = { Gives };

    ghost remaining = { λ s. at_most (s.asked.run.last + 2 - s.line) };

    #[inline(always)]
    fn next(&mut self) -> Option<Stretch> {
        // the first line that is blanked, and after it the first that is not
        let asked = self.asked;
        let first = asked.next_blanked(self.line)?;
        let end = asked.next_clear(first + 1).unwrap_or(asked.run.last + 1);
        self.line = end + 1;
        Some(Stretch {
            first,
            last: end - 1,
        })
    }
}

// Public operation. The maximal stretches of consecutive lines of a run that each have a guard cell of its map at or above the
// threshold, written into the room in rising order, the first and the last line of each; what comes back is their count. They are
// counted before the first is written, so that a room that is too small is left as it was.
// Refused, in this order: 1, 17, 18, 3 for the run, 19 for a threshold of 0, 20 for a guard that reaches outside the window or is
// upside down, 9 for a map not of the run's length, 21 for a room that holds fewer stretches than there are.
pub fn list_stretches(
    run: Run,
    map: &[u8],
    threshold: u8,
    guard: Guard,
    room: &mut [u32],
) -> Result<usize, Refusal>
    ensures { BlankingPromise run map.now threshold guard room.old result room.new }
{
    judge(run, map, threshold, guard)?;
    let asked = Asked {
        run,
        map,
        threshold,
        guard,
    };
    let count = asked.stretches().count();
    Reason::StretchRoom.when(room.len() / 2 < count)?;
    asked.write_stretches(room);
    Ok(count)
}
