// The step vectors of Franke and Kleinjung's first proposition (document 002), and the single vector where there is no pair.
// Every function is proved. `step_vectors` is the one public operation here, and it asks nothing of its caller.
#![tactic(auto)]

ghost use Rattle.std.specs.Prelude.{◌≡◌, ◌<◌, ◌^◌};
ghost use Rattle.scope.specs.Refusal.{complaint};
ghost use Rattle.scope.specs.Inner.{verdict};
ghost use Rattle.vectors.specs.Promise.{vectors_tests, VectorsPromise};
ghost use Rattle.vectors.specs.Inner.{ValidSpan, Spans, turn, first_two, alongside, Reaches, plus_times, next_of, partner_of, Ready, Divided, Open};

use scope::{Place, Reason, Refusal, judge_period, judge_window};
use signed::size;

// Numbers are widened by `as` here and in the crates of the walk: `u64::from` was tried, and its value is a name to the goals, not a number.

// A vector of the lattice: so many ticks of offset, to the right or (below 0) to the left, and so many lines on.
#[derive(Clone, Copy)]
pub struct Vector {
    pub offset: i64,
    pub line: u64,
}

// The pair, or the single vector, of what passed the tests.
#[derive(Clone, Copy)]
pub enum Basis {
    // (α, β), which leads left, and (γ, δ), which leads right.
    Two(Vector, Vector),
    // (0, p/g), where no such pair exists.
    One(Vector),
}

// The reply of the vectors call. No Result: document 01 names an enum of these three kinds.
#[derive(Clone, Copy)]
pub enum Steps {
    // (α, β) and (γ, δ) of 002's first proposition.
    Pair(Vector, Vector),
    // No pair exists: (0, p/g).
    Single(Vector),
    // Why it is refused, and where.
    Refused(Reason, Place),
}

// Two successive vectors of the division sequence.
#[derive(Clone, Copy)]
pub struct Turn {
    pub before: Vector,
    pub last: Vector,
}

// n ticks to the side to which x leads.
fn to_side_of(x: i64, n: u64) -> i64
    requires { n < 2 ^ 63 }
    ensures { result ≡ alongside x n }
{
    if x < 0 { -(n as i64) } else { n as i64 }
}

impl Vector {
    // This vector plus `last` so many times, where so often `last` leads no further than this one, to the other side:
    // the offset is what is left of this one's, to its side.
    fn plus(self, times: u64, last: Vector) -> Vector
        requires { Reaches self times last }
        ensures { result ≡ plus_times self times last }
    {
        let rest = size(self.offset) - times * size(last.offset);
        Vector {
            offset: to_side_of(self.offset, rest),
            line: self.line + times * last.line,
        }
    }
}

impl Turn {
    // Inner step. The first two vectors of the division sequence: (-p, 0) and (r, 1).
    pub fn first(period: u32, remainder: u32) -> Turn
        ensures { result ≡ first_two period remainder }
    {
        Turn {
            before: Vector {
                offset: -(period as i64),
                line: 0,
            },
            last: Vector {
                offset: remainder as i64,
                line: 1,
            },
        }
    }

    // Inner step. The next two: after `last` comes `before` plus `last` as often as the size of its offset goes into that of `before`.
    pub fn next(self) -> Turn
        requires { Reaches self.before 0 self.last }
        ensures { result ≡ turn self.last (next_of self.before self.last) }
    {
        let times = size(self.before.offset) / size(self.last.offset);
        Turn {
            before: self.last,
            last: self.before.plus(times, self.last),
        }
    }

    // The division sequence, from these two vectors to the first that stays within the window and the one before it: a recursion,
    // as document 01 names it. The size of the last offset falls at each call, so that it ends, at the latest with 0. The vectors are
    // changed in place: handed back, they would be copied at every return, and the recursion is compiled into a loop over registers.
    fn divide(&mut self, window: u64)
        requires { Ready window self.old.before self.old.last }
        ensures { Divided window self.old.before self.old.last self.new }
    {
        if size(self.last.offset) < window {
            return;
        }
        *self = self.next();
        self.divide(window);
    }

    // The vector that makes a pair with the last one: the one before it, plus the last just so often that it comes within the window.
    fn partner(self, window: u64) -> Vector
        requires { Open window self.before self.last }
        ensures { result ≡ partner_of self.before self.last window }
    {
        let times = (size(self.before.offset) - window) / size(self.last.offset) + 1;
        self.before.plus(times, self.last)
    }
}

// Inner step. The pair, or the single vector where there is none, of a window no wider than the period.
// The division sequence of (-p, 0) and (r, 1) is stopped at the first vector within the window. Where its offset is 0,
// the one before it moves by gcd(r, p), at least the window, and no pair exists.
pub fn find_basis(period: u32, remainder: u32, window: u32) -> Basis
    requires { ValidSpan period remainder window }
    ensures { Spans period remainder window result }
{
    let mut turn = Turn::first(period, remainder);
    turn.divide(window as u64);
    let last = turn.last;
    if last.offset == 0 {
        return Basis::One(last);
    }
    let other = turn.partner(window as u64);
    if last.offset < 0 {
        Basis::Two(last, other)
    } else {
        Basis::Two(other, last)
    }
}

// What the tests of the vectors call come to: of the window and of the period, then of the remainder, then of the two widths.
fn judge(period: u32, remainder: u32, window: u32) -> Result<(), Refusal>
    ensures { result ≡ verdict (complaint (vectors_tests period remainder window)) }
{
    judge_window(window)?;
    judge_period(period)?;
    Reason::Remainder.when(period <= remainder)?;
    Reason::WiderThanPeriod.when(period < window)
}

// Public operation. The step vectors of a period, a remainder below it and a window no wider than it.
// Refused, in this order: 1 for the window, 4 for the period, 5 for a remainder not below it, 6 for a window wider than it.
pub fn step_vectors(period: u32, remainder: u32, window: u32) -> Steps
    ensures { VectorsPromise period remainder window result }
{
    if let Err(refusal) = judge(period, remainder, window) {
        return Steps::Refused(refusal.reason, refusal.place);
    }
    match find_basis(period, remainder, window) {
        Basis::Two(left, right) => Steps::Pair(left, right),
        Basis::One(only) => Steps::Single(only),
    }
}
