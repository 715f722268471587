// The integers, as the crates above need them: the size of one, and laws of them all.
// proofs/ has differences and parts, which carry a fact over the integers to one over the natural numbers.
#![tactic(auto)]

ghost use Rattle.std.specs.Prelude.{◌≡◌, nat_abs};

// Inner step. The size of x, without its sign: a name of its own, since a wrong program is an edit of it (`one_short`).
pub fn size(x: i64) -> u64
    ensures { result ≡ nat_abs x }
{
    x.unsigned_abs()
}
