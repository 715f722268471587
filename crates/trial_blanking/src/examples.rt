// The blanking call over 01's map, which the plain map call makes, with what 02 has it answer; and at the ends of the ranges: the first and
// the last line there is, one line, the widest window, the ends of 64 bits.
use crate::comparing;
use crate::comparing::NO_LINE;
use crate::ledger::{Ends, Example};
use crate::stretches::Asked;
use scope::Run;
use trying::numbers;
use trying::reference::{Refusal, alone};
use trying::tally::Tally;

// A run with a window of 4. (`Run::new` would name no number that differs.)
fn run_of(first: u32, last: u32) -> Run {
    Run {
        window: 4,
        interval: 10,
        first,
        last,
    }
}

// 01's map: window 4, interval 10, lines 1 to 5, sources 7 60 and 3 200.
fn example_map() -> [u8; 20] {
    let mut map = [0u8; 20];
    let _ = map::make_map(run_of(1, 5), &[7, 3], &[60, 200], &[0, 0], &mut map);
    map
}

// What is asked of 01's map.
fn ask(threshold: u8, lowest: i64, highest: i64) -> Asked {
    Asked {
        run: run_of(1, 5),
        threshold,
        lowest,
        highest,
    }
}

impl Asked {
    // Whether the call answers with so many stretches, or is refused so, and makes of a room of so many numbers, up to 6, what is expected.
    fn says(
        self,
        reply: Result<usize, Refusal>,
        map: &[u8],
        size: usize,
        expected: [u32; 6],
    ) -> bool {
        let mut room = [NO_LINE; 6];
        let (Some(room), Some(expected)) = (room.get_mut(..size), expected.get(..size)) else {
            return false;
        };
        comparing::replies(reply, self, map, room, expected)
    }

    // Whether the call is refused with this number and leaves a room of so many numbers.
    fn refused(self, number: u8, map: &[u8], size: usize) -> bool {
        self.says(alone(number), map, size, [NO_LINE; 6])
    }

    // Whether there is no stretch in a map, which leaves a room of so many numbers.
    fn lists_none(self, map: &[u8], size: usize) -> bool {
        self.says(Ok(0), map, size, [NO_LINE; 6])
    }

    // Whether the stretches of a map, in a room of so many numbers, are this one alone.
    fn lists_one(self, map: &[u8], size: usize, first: u32, last: u32) -> bool {
        let expected = [first, last, NO_LINE, NO_LINE, NO_LINE, NO_LINE];
        self.says(Ok(1), map, size, expected)
    }

    // Whether the stretches of a map, in a room of so many numbers, are a line alone and then another stretch.
    fn lists_two(self, map: &[u8], size: usize, line: u32, first: u32, last: u32) -> bool {
        let expected = [line, line, first, last, NO_LINE, NO_LINE];
        self.says(Ok(2), map, size, expected)
    }
}

// Threshold 255, guard -2 to 1: lines 2 and 4, in rooms of 4 numbers and more.
fn try_rooms(tally: &mut Tally, map: &[u8]) {
    for size in 4..7 {
        tally.count(ask(255, -2, 1).lists_two(map, size, 2, 4, 4));
    }
}

// The same in rooms of fewer: refused 21.
fn try_short_rooms(tally: &mut Tally, map: &[u8]) {
    for size in 0..4 {
        tally.count(ask(255, -2, 1).refused(21, map, size));
    }
}

// Guards of one offset, and other thresholds. Guard 1 to 1: a cell of 60 reaches 60, and then lines 4 and 5 are one stretch; it does not
// reach 61, nor one of 200 201.
fn try_guards(tally: &mut Tally, map: &[u8]) {
    tally.count(ask(200, -1, -1).lists_two(map, 6, 2, 5, 5));
    tally.count(ask(200, 0, 0).lists_one(map, 6, 3, 3));
    tally.count(ask(60, 1, 1).lists_two(map, 6, 1, 4, 5));
    tally.count(ask(61, 1, 1).lists_two(map, 6, 1, 4, 4));
    tally.count(ask(200, -2, 1).lists_one(map, 6, 1, 5));
    tally.count(ask(201, -2, 1).lists_two(map, 6, 2, 4, 4));
}

// Tries what is asked of 01's map. Guard -2 to -2, threshold 200: lines 1 and 4. Threshold 255, guard 0 to 1: no line, which any room
// holds.
pub fn try_example(example: &mut Example) {
    let map = example_map();
    try_rooms(&mut example.two_stretches, &map);
    try_short_rooms(&mut example.short_rooms, &map);
    try_guards(&mut example.other_guards, &map);
    let leftmost = ask(200, -2, -2).lists_two(&map, 4, 1, 4, 4);
    example.one_offset.count(leftmost);
    example.no_stretch.count(ask(255, 0, 1).lists_none(&map, 0));
    example.no_stretch.count(ask(255, 0, 1).lists_none(&map, 6));
}

// Ends of guards: those of the window of 4, one offset further out, and as far as 64 bits go.
const GUARD_ENDS: [i64; 6] = [i64::MIN, -3, -2, 1, 2, i64::MAX];

// Guards from one of these ends to each: outside the window or upside down, and refused 20, are all but -2 to -2, -2 to 1 and 1 to 1.
fn try_guards_from(tally: &mut Tally, lowest: i64, map: &[u8]) {
    for highest in GUARD_ENDS {
        let right = matches!((lowest, highest), (-2, -2) | (-2, 1) | (1, 1));
        tally.count(ask(255, lowest, highest).refused(20, map, 6) != right);
    }
}

// Guards from each of these ends.
fn try_guard_ends(tally: &mut Tally) {
    let map = example_map();
    for lowest in GUARD_ENDS {
        try_guards_from(tally, lowest, &map);
    }
}

// Maps that are not of the run's length: one cell short, with room for all lines or for none, one too long, or empty. The first is refused
// 19 where the threshold is 0.
fn try_lengths(ends: &mut Ends) {
    let map = [255u8; 21];
    let asked = ask(255, -2, 1);
    ends.no_threshold
        .count(ask(0, -2, 1).refused(19, &map[..19], 6));
    ends.wrong_length.count(asked.refused(9, &map[..19], 6));
    ends.wrong_length.count(asked.refused(9, &map[..19], 0));
    ends.wrong_length.count(asked.refused(9, &map, 6));
    ends.wrong_length.count(asked.refused(9, &[], 6));
}

// Whether a map of ones is one stretch of all lines of a run of five lines or of one, in a room for just that.
fn lists_all(first: u32, last: u32, map: &[u8]) -> bool {
    let asked = Asked {
        run: run_of(first, last),
        ..ask(1, -2, 1)
    };
    asked.lists_one(map, 2, first, last)
}

// Maps of ones.
fn try_ones(tally: &mut Tally) {
    let map = [1u8; 20];
    tally.count(lists_all(1, 5, &map));
    tally.count(lists_all(0, 4, &map));
    tally.count(lists_all(16777212, 16777216, &map));
    tally.count(lists_all(0, 0, &map[..4]));
    tally.count(lists_all(16777216, 16777216, &map[..4]));
}

// Whether line 7, with a window of 50, is a stretch where the cell at a place is at the threshold and every other just below it.
fn finds(place: usize) -> bool {
    let mut map = [199u8; 50];
    let asked = Asked {
        run: Run {
            window: 50,
            ..run_of(7, 7)
        },
        ..ask(200, -25, 24)
    };
    let none = asked.lists_none(&map, 2);
    numbers::put(&mut map, place, 200);
    none && asked.lists_one(&map, 2, 7, 7)
}

// A cell at the threshold is found at each place of a line, wherever the cells that are looked at together begin and end.
fn try_places(tally: &mut Tally) {
    for place in 0..50 {
        tally.count(finds(place));
    }
}

// What is asked of two lines of the widest window, with a guard of one offset.
fn ask_widest(offset: i64) -> Asked {
    Asked {
        run: Run {
            window: 4096,
            ..run_of(0, 1)
        },
        ..ask(1, offset, offset)
    }
}

// Guards at the ends of the widest window, and one offset further out. The first cell of line 0 and the last of line 1 are 1.
fn try_widest(tally: &mut Tally) {
    let mut map = [0u8; 8192];
    map[0] = 1;
    map[8191] = 1;
    tally.count(ask_widest(-2048).lists_one(&map, 2, 0, 0));
    tally.count(ask_widest(2047).lists_one(&map, 2, 1, 1));
    tally.count(ask_widest(-2049).refused(20, &map, 2));
    tally.count(ask_widest(2048).refused(20, &map, 2));
}

// Tries the ends of the ranges.
pub fn try_ends(ends: &mut Ends) {
    try_guard_ends(&mut ends.guards);
    try_lengths(ends);
    try_ones(&mut ends.ones);
    try_places(&mut ends.places);
    try_widest(&mut ends.widest);
}
