// Random numbers: the states of Marsaglia's xorshift of 64 bits, so that a program draws the same each time.
use crate::numbers::low32;

// A state, and the random number that it is.
#[derive(Clone, Copy)]
pub struct State(pub u64);

impl State {
    // The state after this one.
    pub fn next(self) -> State {
        let a = self.0 ^ (self.0 << 13);
        let b = a ^ (a >> 7);
        State(b ^ (b << 17))
    }

    // The same number without its low bits, so many: what is drawn from it has little to do with what is drawn from those.
    pub fn past(self, bits: u32) -> State {
        State(self.0.wrapping_shr(bits))
    }

    // A number below a limit; 0 if that is 0. The low bits of the state are left out.
    pub fn below(self, limit: u32) -> u32 {
        low32(self.past(16).0.checked_rem(u64::from(limit)).unwrap_or(0))
    }

    // A number from 1 to a limit.
    pub fn up_to(self, limit: u32) -> u32 {
        self.below(limit).wrapping_add(1)
    }

    // Whether what comes one time in so many comes now.
    pub fn seldom(self, times: u32) -> bool {
        self.below(times) == 0
    }

    // The low 8 bits.
    pub fn byte(self) -> u8 {
        (self.0 & 255) as u8
    }

    // Fills bytes with random ones.
    pub fn fill(self, bytes: &mut [u8]) {
        let mut state = self;
        for byte in bytes {
            state = state.next();
            *byte = state.past(20).byte();
        }
    }
}
