// What is counted and printed: each line a count and its words, group by group.
use crate::stretches::Asked;
use scope::Run;
use std::io;
use trying::reference;
use trying::reference::Judged;
use trying::tally::{Tally, print};

// 01's map.
#[derive(Clone, Copy, Default)]
pub struct Example {
    pub two_stretches: Tally,
    pub short_rooms: Tally,
    pub one_offset: Tally,
    pub other_guards: Tally,
    pub no_stretch: Tally,
}

// Refusals, and the ends of the ranges.
#[derive(Clone, Copy, Default)]
pub struct Ends {
    pub guards: Tally,
    pub no_threshold: Tally,
    pub wrong_length: Tally,
    pub ones: Tally,
    pub places: Tally,
    pub widest: Tally,
    pub faults: Tally,
}

// Random calls, all and by their kinds, so that a kind that never came is seen.
#[derive(Clone, Copy, Default)]
pub struct Kinds {
    pub all: Tally,
    pub from_zero: Tally,
    pub to_last: Tally,
    pub all_blanked: Tally,
    pub none_blanked: Tally,
    pub several: Tally,
    pub single_offset: Tally,
    pub filled: Tally,
    pub odd: Tally,
    pub refused_room: Tally,
    pub refused: Tally,
    pub two_faults: Tally,
}

impl Example {
    fn lines(self) -> [(Tally, &'static str); 5] {
        [
            (
                self.two_stretches,
                "map of run 4 10 1 5 with sources 7 60, 3 200, threshold 255, guard -2 to 1: lines 2, 4",
            ),
            (
                self.short_rooms,
                "the same with room for 3 numbers or fewer refused 21",
            ),
            (self.one_offset, "threshold 200, guard -2 to -2: lines 1, 4"),
            (self.other_guards, "other guards and thresholds"),
            (
                self.no_stretch,
                "no line at threshold 255, guard 0 to 1: no room needed",
            ),
        ]
    }
}

impl Ends {
    fn lines(self) -> [(Tally, &'static str); 7] {
        [
            (
                self.guards,
                "guards between -2^63, -3, -2, 1, 2, 2^63 - 1 refused 20, all but -2 to -2, -2 to 1, 1 to 1",
            ),
            (
                self.no_threshold,
                "threshold 0 with a map one cell short refused 19",
            ),
            (
                self.wrong_length,
                "threshold 255 with a map not of its length refused 9",
            ),
            (
                self.ones,
                "maps of ones, from line 0 and to line 16777216: one stretch of all lines",
            ),
            (
                self.places,
                "window 50: one cell at the threshold, at each place",
            ),
            (
                self.widest,
                "window 4096: guards at -2048 and 2047, one further out refused 20",
            ),
            (
                self.faults,
                "each set of eight faults refused for the first of 1, 17, 18, 3, 19, 20, 9, 21",
            ),
        ]
    }
}

impl Kinds {
    // Counts a call that is refused, or not, under the kinds of its refusal, for a map of so many cells.
    pub fn count_refused(&mut self, asked: Asked, cells: usize, judged: Judged, fine: bool) {
        let room = judged.is_err_and(|refusal| refusal.number == 21);
        let other = judged.is_err() && !room;
        self.refused_room.count_if(room, fine);
        self.refused.count_if(other, fine);
        self.two_faults
            .count_if(other && has_two(asked, cells), fine);
    }

    // Counts a call that is not refused under the kinds of its run and its marked lines.
    pub fn count_lines(&mut self, run: Run, marks: &[bool], fine: bool) {
        let blanked = marks.iter().filter(|mark| **mark).count();
        self.from_zero.count_if(run.first == 0, fine);
        self.to_last
            .count_if(marks.last().copied().unwrap_or(false), fine);
        self.all_blanked.count_if(blanked == marks.len(), fine);
        self.none_blanked.count_if(blanked == 0, fine);
    }

    // The same under the kinds of its guard, and of so many stretches in a room of so many numbers.
    pub fn count_rooms(&mut self, asked: Asked, count: usize, size: usize, fine: bool) {
        self.several.count_if(1 < count, fine);
        self.single_offset
            .count_if(asked.lowest == asked.highest, fine);
        self.filled.count_if(size / 2 == count, fine);
        self.odd.count_if(size % 2 == 1, fine);
    }

    fn lines(self) -> [(Tally, &'static str); 12] {
        [
            (self.all, "blanking lists of random runs"),
            (self.from_zero, "runs from line 0"),
            (self.to_last, "a stretch to the last line"),
            (self.all_blanked, "all lines blanked"),
            (self.none_blanked, "no line blanked"),
            (self.several, "two stretches or more"),
            (self.single_offset, "guards of one offset"),
            (self.filled, "rooms for no stretch more"),
            (self.odd, "rooms of an odd length"),
            (self.refused_room, "refused 21"),
            (self.refused, "refused before the room is looked at"),
            (self.two_faults, "refused so for one of two faults or more"),
        ]
    }
}

// Whether a call with a map of so many cells has two faults or more: of its run, its threshold, its guard and, if the run is fine, its
// map's length.
fn has_two(asked: Asked, cells: usize) -> bool {
    let run = reference::judge_run(asked.run).is_err();
    let length = !run && reference::cells(asked.run) != cells;
    let faults = [
        run,
        asked.threshold == 0,
        asked.judge_guard().is_err(),
        length,
    ];
    2 <= faults.iter().filter(|fault| **fault).count()
}

// All that is counted.
#[derive(Clone, Copy, Default)]
pub struct Ledger {
    pub example: Example,
    pub ends: Ends,
    pub kinds: Kinds,
}

impl Ledger {
    // Prints it.
    pub fn print(self, rt: &impl Print) -> io::Result<()> {
        print(rt, &self.example.lines())?;
        print(rt, &self.ends.lines())?;
        print(rt, &self.kinds.lines())
    }
}
