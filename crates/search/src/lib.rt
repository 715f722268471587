// Where a source comes into the window: its distance on a line, and the first hit from a line or a cell on.
// No function here loops over lines or hits: a point is carried down the division sequence of 002, O(log p) rounds.
#![tactic(auto)]

ghost use Rattle.std.specs.Prelude.{◌≡◌, ℕ, ◌+◌, ◌-◌, ◌*◌, ◌%◌, ◌≤◌, ◌<◌};
ghost use Rattle.lattice.proofs.Multiples.{Above};
ghost use Rattle.scope.specs.Run.{ValidRun, ValidSource, cells_of};
ghost use Rattle.scope.proofs.Hits.{origin};
ghost use Rattle.vectors.specs.Inner.{Successive};
ghost use Rattle.search.specs.Inner.{Approaching, Nearer, Seeking, Sought, PointOf, FirstRight, FirstHit};

use scope::{Run, RunCell, Source};
use signed::size;
use vectors::Turn;

// What a search is asked: of which run and of which source, both within the limits.
#[derive(Clone, Copy)]
pub struct Asked {
    pub run: Run,
    pub source: Source,
    pub ghost valid: { ValidRun run × ValidSource source },
}

// A point of a source: its distance from the window's left edge, to the right, and its line.
#[derive(Clone, Copy)]
pub struct Point {
    pub distance: u64,
    pub line: u64,
}

// How often a step has to be taken to go further than a gap.
fn turns_past(gap: u64, step: u64) -> u64
    requires { (0 < step) × (gap < 2147483648) }
    ensures { Above gap step result }
{
    gap / step + 1
}

// A point nearer to the window, with none passed over: of two successive vectors `before` leads n ticks to one side and `last`
// m < n to the other. Where `last` leads left, it is added until the point is nearer than m or the window's width; where it leads
// right, it is added until the point is n or further right, and then `before` once, which gives the first point nearer than this one.
fn approach(turn: Turn, at: Point, window: u64) -> Point
    requires { Approaching turn.before turn.last at window }
    ensures { (p r : ℕ) → Successive p r turn.before turn.last → Nearer p r turn.last window at result }
{
    let m = size(turn.last.offset);
    if at.distance < m {
        return at;
    }
    if turn.last.offset < 0 {
        let turns = turns_past(at.distance - m.max(window), m);
        return Point {
            distance: at.distance - turns * m,
            line: at.line + turns * turn.last.line,
        };
    }
    let n = size(turn.before.offset);
    let turns = turns_past(n - at.distance - 1, m);
    Point {
        distance: at.distance + turns * m - n,
        line: at.line + (turns * turn.last.line + turn.before.line),
    }
}

// The first point within the window from `start` on, if one lies on a line up to `end`: the point is brought nearer vector by
// vector, down the division sequence, until it is within the window, past that line, or the sequence ends. The next vector is
// worked out before the point moves, so that its division does not wait for the point's. No range has the turns: the point says when they end.
fn seek(first: Turn, start: Point, window: u64, end: u64) -> Option<Point>
    requires { Seeking first.before first.last start window end }
    ensures { (p r : ℕ) → Successive p r first.before first.last → Sought p r window end start result }
{
    let mut turn = first;
    let mut at = start;
    while at.line <= end {
        if at.distance < window {
            return Some(at);
        }
        if turn.last.offset == 0 {
            return None;
        }
        let after = turn.next();
        at = approach(turn, at, window);
        turn = after;
    }
    None
}

// The first distance at `from` or right of it that is `here` or lies whole periods right of it.
fn first_right(here: u64, from: u64, period: u64) -> u64
    requires { (here < period) × (period ≤ 2147483647) × (from ≤ 4096) }
    ensures { FirstRight here from period result }
{
    if from <= here {
        return here;
    }
    here + turns_past(from - here - 1, period) * period
}

impl Asked {
    // Inner step. How far right of the window's left edge the source's first point on a line is; it may lie past the window.
    // Every other step goes from one point of the source to another, so that where its points lie is said here alone.
    // The phase leads to the left; what it lacks to a period leads to the right and to the same points.
    pub fn distance(self, line: u64) -> u64
        requires { line ≤ 16777217 }
        ensures { result ≡ (self.run.interval * line + origin self.run self.source) % self.source.period }
    {
        let period = self.source.period as u64;
        let phase = self.source.phase as u64;
        let lacking = period - phase;
        let unphased = self.run.interval as u64 * line + self.run.window as u64 / 2;
        (unphased + lacking) % period
    }

    // Inner step. The first point within the window from a point of the source on, if one lies on a line up to the run's last: the
    // search down the division sequence of (-p, 0) and (r, 1).
    pub fn enter(self, at: Point) -> Option<Point>
        requires { at.distance < self.source.period }
        ensures { Sought self.source.period (self.run.interval % self.source.period) self.run.window self.run.last at result }
    {
        let first = Turn::first(self.source.period, self.run.interval % self.source.period);
        seek(first, at, self.run.window as u64, self.run.last as u64)
    }

    // The distance on the next line, of a source that is at this distance: the interval's remainder more, or a period less than
    // that where it comes to a period.
    fn distance_after(self, distance: u64) -> u64
        requires { distance < self.source.period }
        ensures { result ≡ (distance + self.run.interval % self.source.period) % self.source.period }
    {
        let period = self.source.period as u64;
        let moved = distance + self.run.interval as u64 % period;
        if moved < period {
            moved
        } else {
            moved - period
        }
    }

    // The first hit from a point of the source on, on its line or a later one, if there is one.
    fn find_from(self, at: Point) -> Option<RunCell>
        requires { PointOf self.run self.source at }
        ensures { FirstHit self.run self.source ((at.line - self.run.first) * self.run.window) result }
    {
        let to = self.enter(at)?;
        Some(RunCell((to.line - self.run.first as u64) * self.run.window as u64 + to.distance))
    }

    // Inner step. The first hit not below `start`, if there is one: the first point at or right of it on its own line, and if that
    // lies past the window the first on the lines after it.
    pub fn find_hit(self, start: RunCell) -> Option<RunCell>
        requires { start.0 < cells_of self.run }
        ensures { FirstHit self.run self.source start.0 result }
    {
        let window = self.run.window as u64;
        let period = self.source.period as u64;
        let passed = start.0 / window;
        let line = self.run.first as u64 + passed;
        let from = start.0 % window;
        let here = self.distance(line);
        let to = first_right(here, from, period);
        if to < window {
            return Some(RunCell(start.0 - from + to));
        }
        let after = Point {
            distance: self.distance_after(here),
            line: line + 1,
        };
        self.find_from(after)
    }
}
