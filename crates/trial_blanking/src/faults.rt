// Every set of the eight faults that a blanking call may have, from none to all at once: it is refused for the first of them in 02's
// order. A set is a number of 8 bits, one for each fault, the first fault's the lowest.
use crate::comparing;
use crate::comparing::NO_LINE;
use crate::stretches::Asked;
use scope::Run;
use trying::reference::{Judged, alone};
use trying::tally::Tally;

// The refusals for the faults, in the order of their bits.
const NUMBERS: [u8; 8] = [1, 17, 18, 3, 19, 20, 9, 21];

// Whether a fault is in a set.
fn has(set: u8, fault: u32) -> bool {
    set.wrapping_shr(fault) % 2 == 1
}

// The refusal that a set of faults is to get: that of its lowest bit.
fn judge(set: u8) -> Judged {
    match NUMBERS.get(set.trailing_zeros() as usize) {
        Some(number) => alone(*number),
        None => Ok(()),
    }
}

// Lines 1 to 5; or the last before the first, or above its limit, or both. (`Run::new` would not name what is spoilt.)
fn run_of(set: u8) -> Run {
    let (first, last) = match (has(set, 1), has(set, 2)) {
        (false, false) => (1, 5),
        (true, false) => (7, 6),
        (false, true) => (16777213, 16777217),
        (true, true) => (16777219, 16777218),
    };
    Run {
        window: if has(set, 0) { 3 } else { 4 },
        interval: if has(set, 3) { 0 } else { 1 },
        first,
        last,
    }
}

// What is asked of a map of ones: threshold 1 or 0, guard -2 to 1 or to 2.
fn asked_of(set: u8) -> Asked {
    Asked {
        run: run_of(set),
        threshold: if has(set, 4) { 0 } else { 1 },
        lowest: -2,
        highest: if has(set, 5) { 2 } else { 1 },
    }
}

// Tries the call with a set of faults: a map of 20 cells, or one short, and a room of two numbers, or one short. With no fault the room
// then holds lines 1 to 5.
fn try_set(tally: &mut Tally, set: u8) {
    let map = [1u8; 20];
    let mut room = [NO_LINE; 2];
    let judged = judge(set);
    let expected = if judged.is_ok() { [1, 5] } else { room };
    let cells = if has(set, 6) { 19 } else { 20 };
    let size = if has(set, 7) { 1 } else { 2 };
    tally.count(comparing::replies(
        judged.map(|()| 1),
        asked_of(set),
        &map[..cells],
        &mut room[..size],
        &expected[..size],
    ));
}

// Tries all sets.
pub fn try_sets(tally: &mut Tally) {
    for set in 0..=255u8 {
        try_set(tally, set);
    }
}
