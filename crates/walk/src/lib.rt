// The walk of a source over a run: from the first hit of a line to the first hit of the next line that has one.
// What it goes by is worked out once; a step is then at most two comparisons, and two sums.
#![tactic(auto)]

ghost use Rattle.std.specs.Prelude.{◌≡◌, ◌+◌, ◌*◌, ◌/◌, ◌≤◌, ◌<◌, ◌^◌, pos, ◌+ℤ◌, ◌-ℤ◌};
ghost use Rattle.scope.specs.Run.{cells_of};
ghost use Rattle.walk.specs.Inner.{Short, Joinable, GoesBy, Begun, Begins, Leads, Movable, Moved, Walking, Walks};

use scope::RunCell;
use search::{Asked, Point};
use vectors::{Basis, Vector};

// A step of the walk: so many ticks of offset, so many cells on.
#[derive(Clone, Copy)]
pub struct Step {
    pub offset: i64,
    pub cells: u64,
}

// Where the walk stands: the first hit of a line.
#[derive(Clone, Copy)]
pub struct LineHit {
    pub offset: i64,
    pub cell: RunCell,
}

// What the walk goes by: the steps (α, β) and (γ, δ), the two as one, and from where and up to where each stays among the
// first hits of lines. These lie in a window that begins at A = -I/2 and is as wide as the run's, or as the period where that
// is less.
#[derive(Clone, Copy)]
pub struct Walk {
    pub left: Step,
    pub right: Step,
    pub both: Step,
    // A - α: from this offset on the step to the left stays in it
    pub low: i64,
    // A + width - γ: below this offset the step to the right does
    pub high: i64,
}

// A vector of the lattice as a step: each of its lines has a window's width of cells.
fn step_of(v: Vector, window: u32) -> Step
    requires { Short v window }
    ensures { (result.offset ≡ v.offset) × (pos result.cells ≡ pos (v.line * window) +ℤ v.offset) }
{
    Step {
        offset: v.offset,
        cells: ((v.line * window as u64) as i64 + v.offset) as u64,
    }
}

// Inner step. The offset at a distance from the window's left edge.
pub fn offset_at(distance: u64, window: u32) -> i64
    requires { (distance ≤ 4096) × (window ≤ 4096) }
    ensures { result ≡ pos distance -ℤ pos (window / 2) }
{
    distance as i64 - (window / 2) as i64
}

impl Step {
    // The two steps as one.
    fn and(self, other: Step) -> Step
        requires { Joinable self other }
        ensures { (result.offset ≡ self.offset +ℤ other.offset) × (result.cells ≡ self.cells + other.cells) }
    {
        Step {
            offset: self.offset + other.offset,
            cells: self.cells + other.cells,
        }
    }
}

// The walk that goes by two vectors, in a window that begins at A and is `width` wide.
fn walk_by(left: Vector, right: Vector, window: u32, width: u32) -> Walk
    requires { Short left window × Short right window × (width ≤ window) }
    ensures { GoesBy left right window width result }
{
    let to_left = step_of(left, window);
    let to_right = step_of(right, window);
    Walk {
        left: to_left,
        right: to_right,
        both: to_left.and(to_right),
        low: offset_at(0, window) - left.offset,
        high: offset_at(width as u64, window) - right.offset,
    }
}

// Inner step. The walk of a source over a run. Where the period is less than the window, each line has its first hit within
// a period from the left edge, so that the vectors are those of a window as wide as the period. A single vector stands
// for both: its offset is 0, so that the step to the left always stays in the window.
pub fn plan(asked: Asked) -> Walk
    ensures { Leads asked.run asked.source result }
{
    let window = asked.run.window;
    let period = asked.source.period;
    let width = period.min(window);
    match vectors::find_basis(period, asked.run.interval % period, width) {
        Basis::Two(left, right) => walk_by(left, right, window, width),
        Basis::One(only) => walk_by(only, only, window, width),
    }
}

// Inner step. The run's first hit, sought from its first line on; its cell is the number of cells if there is none, as a walk's is
// past the last hit. No Option: tried, and slower. The loop that adds to a map then keeps an offset in memory, not in a register
// (30 periods of 3 to 2,000 at windows of 64 and 512, x86-64: 1.16 and 1.14 times as long; the aim beside C at 64 was last met on Arm, by
// one part in a hundred).
pub fn begin(asked: Asked) -> LineHit
    ensures { Begun asked.run asked.source result }
{
    let run = asked.run;
    let line = run.first as u64;
    let from = Point {
        distance: asked.distance(line),
        line,
    };
    match asked.enter(from) {
        Some(to) => LineHit {
            offset: offset_at(to.distance, run.window),
            cell: RunCell((to.line - line) * run.window as u64 + to.distance),
        },
        None => LineHit {
            offset: 0,
            cell: RunCell(scope::cells(run)),
        },
    }
}

// Inner step. The first hit on the line of a hit cell: whole periods left of it, as far left as the line goes.
pub fn line_hit_of(asked: Asked, cell: RunCell) -> LineHit
    requires { cell.0 ≤ cells_of asked.run }
    ensures { Begins asked.run asked.source cell.0 result }
{
    let window = asked.run.window;
    let from = cell.0 % window as u64;
    let first = from % asked.source.period as u64;
    LineHit {
        offset: offset_at(first, window),
        cell: RunCell(cell.0 - from + first),
    }
}

impl LineHit {
    // A step on from here.
    fn moved(self, step: Step) -> LineHit
        requires { Movable self step }
        ensures { Moved self step result }
    {
        LineHit {
            offset: self.offset + step.offset,
            cell: RunCell(self.cell.0 + step.cells),
        }
    }
}

impl Walk {
    // Inner step. The first hit of the next line that has one: 002's proposition 2. Just one of its cases applies.
    pub fn next(self, at: LineHit) -> LineHit
        requires { Walking self at }
        ensures { (result.cell.0 < 2 ^ 46) × Walks self at result }
    {
        if at.offset >= self.low {
            return at.moved(self.left);
        }
        if at.offset < self.high {
            return at.moved(self.right);
        }
        at.moved(self.both)
    }
}
