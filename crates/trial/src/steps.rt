// The step vectors, held against the conditions of 01.
use scope::Refusal;
use trying::draw::Case;
use trying::numbers::low32;
use trying::reference::{Judged, when};
use trying::refusals::same;
use trying::{draw, reference};
use vectors::{Steps, Vector};

// What the vectors call is asked.
#[derive(Clone, Copy)]
pub struct Asked {
    pub period: u32,
    pub remainder: u32,
    pub window: u32,
}

impl Asked {
    // The refusals of the call, in 01's order.
    fn judge(self) -> Judged {
        reference::judge_window(self.window)?;
        reference::judge_period(self.period)?;
        when(self.period <= self.remainder, 5)?;
        when(self.period < self.window, 6)
    }

    // Whether p divides r·line + left - right, where `right` is below p.
    fn in_lattice(self, line: u64, left: u64, right: u64) -> bool {
        let ahead = u64::from(self.remainder)
            .wrapping_mul(line)
            .wrapping_add(left);
        ahead.checked_rem(u64::from(self.period)) == Some(right)
    }

    // 01's conditions of a pair (-a, β), (c, δ): a and c are below I and together at least I, β and δ are above 0, both vectors
    // lie in the lattice, and β·c + a·δ = p. The first leads to the left or straight on, the second to the right or straight on. That
    // no number is above p, which has 31 bits, makes the sums and products what they are in the integers.
    fn is_pair(self, left: Vector, right: Vector) -> bool {
        let p = u64::from(self.period);
        let window = u64::from(self.window);
        let a = left.offset.unsigned_abs();
        let b = left.line;
        let c = right.offset.unsigned_abs();
        let d = right.line;
        left.offset <= 0
            && 0 <= right.offset
            && a < window.min(p)
            && c < window.min(p)
            && window <= a.wrapping_add(c)
            && 0 < b
            && b <= p
            && 0 < d
            && d <= p
            && self.in_lattice(b, a, 0)
            && self.in_lattice(d, 0, c)
            && b.wrapping_mul(c).wrapping_add(a.wrapping_mul(d)) == p
    }

    // Whether a vector is (0, p/g), g being the greatest common divisor of r and p, and at least I. That it is the greatest is seen
    // from what is left of r and p: 1 alone divides both.
    fn is_single(self, only: Vector) -> bool {
        let p = u64::from(self.period);
        let r = u64::from(self.remainder);
        let g = p.checked_div(only.line).unwrap_or(0);
        let left = r.checked_div(g).unwrap_or(0);
        only.offset == 0
            && 0 < only.line
            && p.is_multiple_of(only.line)
            && r.is_multiple_of(g)
            && u64::from(self.window) <= g
            && reference::greatest_common_divisor(low32(left), low32(only.line)) == 1
    }

    // Whether the step vectors are as 01 says, or refused so. A pair that meets its conditions is the only one, and there is none where the
    // common divisor is at least the window.
    pub fn says(self, judged: Judged) -> bool {
        match (self.reply(), judged) {
            (Steps::Pair(left, right), Ok(())) => self.is_pair(left, right),
            (Steps::Single(only), Ok(())) => self.is_single(only),
            (Steps::Refused(reason, place), Err(refusal)) => same(
                Refusal { reason, place },
                refusal,
            ),
            _ => false,
        }
    }

    // The reply of the call.
    fn reply(self) -> Steps {
        vectors::step_vectors(self.period, self.remainder, self.window)
    }
}

// Whether the step vectors of a random case, with a fault here and there, are as 01 says.
pub fn vectors_agree(case: Case) -> bool {
    let Case { run, source, state } = case;
    let b = state.next();
    let period = draw::maybe(source.period, b, 8);
    let remainder = run.interval.checked_rem(period).unwrap_or(0);
    let asked = Asked {
        period,
        remainder: draw::maybe(remainder, b.next(), 8),
        window: draw::maybe(run.window, state, 8),
    };
    asked.says(asked.judge())
}
