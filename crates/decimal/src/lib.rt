// Numbers as text, in decimal: written on a page, and read from a text.
// Every function here is proved. The public ones are inner steps of what reads and writes whole texts.
#![tactic(auto)]

ghost use Rattle.std.specs.Prelude.{◌+◌, ◌≤◌, ◌<◌, ◌≡◌, false, [], ◌∷◌, length, drop, MatchOption};
ghost use Rattle.decimal.specs.Digits.{digits};
ghost use Rattle.decimal.specs.Inner.{Fits, Writes, begins_with_digit, DigitStands, Reading};

// A page: a lent room, and where in it is written next. std's `Cursor` is no plainer: its writes can fail, and what fits on a page does not.
#[derive(Drop)]
pub struct Page<'a> {
    pub room: &'a mut [u8],
    pub at: usize,
}

impl<'a> Page<'a> {
    // Inner step. The page that begins where the room begins.
    pub fn new(room: &'a mut [u8]) -> Page<'a>
        ensures same_room { result.room.ghost_name ≡ room.entry.ghost_name }
        ensures nothing { (result.room.now ≡ room.old) × (result.at ≡ 0) }
    {
        Page { room, at: 0 }
    }

    // Inner step. Writes bytes behind what is written; the caller sees to it that they fit.
    pub fn write_bytes(&mut self, bytes: &[u8])
        requires { Fits self.old bytes.now }
        ensures { Writes self.old bytes.now self.new }
    {
        self.at = rooms::write_bytes(self.room, self.at, bytes);
    }

    // Inner step. Writes n; the caller sees to it that it fits.
    // The digits of n are those of n / 10 and then n % 10, so the call that writes the first ones comes first. `Display` is no plainer
    // here: a page would have to be a `fmt::Write`, whose writes can fail, and what fits on a page does not.
    pub fn write_number(&mut self, n: u64)
        requires { Fits self.old (digits n) }
        ensures { Writes self.old (digits n) self.new }
    {
        if n >= 10 {
            self.write_number(n / 10);
        }
        self.write_digit(n % 10);
    }

    // Writes one digit.
    fn write_digit(&mut self, digit: u64)
        requires { (digit < 10) × (self.old.at < length self.old.room.now) }
        ensures { Writes self.old ((48 + digit) ∷ []) self.new }
    {
        self.room[self.at] = b'0' + digit as u8;
        self.at += 1;
    }
}

// Inner step. The number in the text at `at`, and where it ends, which is where its digits end. Text and place stay two, here and in the
// crates above: the laws speak of the whole text, and a struct of the two would be opened in each step.
// The digits passed are always those of `value`. One more after 0 makes that a leading zero, and a value
// that does not fit only grows with more digits, so both end the reading at once. (`parse` reads a whole text and takes leading zeros.)
// By place, not byte by byte: where the digits end is half of the answer.
#[tactic(auto, using(crate::proofs::Readings::no_digit, crate::proofs::Readings::leading_zero))]
pub fn read_number(text: &[u8], at: usize) -> Option<(u32, usize)>
    ensures { Reading text.now at result }
{
    let mut value = digit_at(text, at)?;
    for next in at + 1..text.len() {
        let Some(digit) = digit_at(text, next) else {
            return Some((value, next));
        };
        if value == 0 {
            return None;
        }
        value = value.checked_mul(10)?.checked_add(digit)?;
    }
    Some((value, text.len()))
}

// The digit in the text at `at`; past the end there is none.
fn digit_at(text: &[u8], at: usize) -> Option<u32>
    ensures { MatchOption result (begins_with_digit (drop at text.now) ≡ false) (λ d. DigitStands text.now at d) }
{
    char::from(*text.get(at)?).to_digit(10)
}
