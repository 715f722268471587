// What is counted and printed: each line a count and its words, group by group.
use scope::Run;
use std::io;
use trying::reference;
use trying::reference::{Judged, Lists};
use trying::tally::{Tally, print};

// The figures, and examples.
#[derive(Clone, Copy, Default)]
pub struct Examples {
    pub wide: Tally,
    pub last: Tally,
    pub from_zero: Tally,
    pub zero_file: Tally,
    pub phased: Tally,
    pub phase_listed: Tally,
    pub last_cell: Tally,
    pub long_texts: Tally,
}

// Maps of nines.
#[derive(Clone, Copy, Default)]
pub struct Nines {
    pub no_sources: Tally,
    pub no_weight: Tally,
    pub made_twice: Tally,
}

// Refusals with two faults at a time.
#[derive(Clone, Copy, Default)]
pub struct Refused {
    pub line_order: Tally,
    pub high_order: Tally,
    pub last_line: Tally,
    pub text_source: Tally,
    pub map_source: Tally,
    pub phase: Tally,
}

// Random cases, call by call.
#[derive(Clone, Copy, Default)]
pub struct Calls {
    pub vectors: Tally,
    pub first_hit: Tally,
    pub listing: Tally,
    pub block: Tally,
    pub made: Tally,
    pub added: Tally,
    pub saving: Tally,
    pub reading: Tally,
    pub text: Tally,
}

// The same, by their kinds, so that a kind that never came is seen.
#[derive(Clone, Copy, Default)]
pub struct Kinds {
    pub pair: Tally,
    pub single: Tally,
    pub no_remainder: Tally,
    pub short: Tally,
    pub equal: Tally,
    pub from_zero: Tally,
    pub phased: Tally,
    pub single_phased: Tally,
    pub two_limits: Tally,
    pub two_sources: Tally,
}

impl Examples {
    fn lines(self) -> [(Tally, &'static str); 8] {
        [
            (self.wide, "window 6 with period 4 refused 6"),
            (
                self.last,
                "last line 16777216 accepted, 16777217 refused 18",
            ),
            (
                self.from_zero,
                "run 4 10 0 5 with sources 7 60, 3 200, and run 2 1 0 0, reported",
            ),
            (
                self.zero_file,
                "file with first line 0 read, and written again",
            ),
            (
                self.phased,
                "run 4 10 0 5 with sources 7 60 2, 3 200, and with source 2147483647 1 2147483646, reported",
            ),
            (
                self.phase_listed,
                "interval 9, period 9, lines 0 to 5: phase 1 hits 1, 5, 9, 13, 17, 21, phase 4 nothing",
            ),
            (
                self.last_cell,
                "window 4096, lines 0 to 16777216: cell 68719480831 the last hit, one more refused 8",
            ),
            (self.long_texts, "texts of 4096 and 4097 bytes"),
        ]
    }
}

impl Nines {
    fn lines(self) -> [(Tally, &'static str); 3] {
        [
            (
                self.no_sources,
                "map of nines with no sources: made, zeros; added to, nines",
            ),
            (
                self.no_weight,
                "map of nines with a weight of 0: refused 7 source 1, nines",
            ),
            (
                self.made_twice,
                "map of nines made twice with sources 7 60, 3 200",
            ),
        ]
    }
}

impl Refused {
    fn lines(self) -> [(Tally, &'static str); 6] {
        [
            (self.line_order, "run 4 0 7 6 refused 17 by eight calls"),
            (
                self.high_order,
                "run 4 0 16777219 16777218 refused 17 by eight calls",
            ),
            (
                self.last_line,
                "run 4 0 0 16777217 refused 18 by eight calls",
            ),
            (
                self.text_source,
                "text with sources 7 60, 0 0, 9 0 refused 4 source 2",
            ),
            (
                self.map_source,
                "map a cell short with a weight, and with a phase, too large: refused 7, 22 source 2",
            ),
            (
                self.phase,
                "source 0 1 0 refused 4, 7 0 7 refused 7, 7 1 7 refused 22, 7 60 2 1 refused 11",
            ),
        ]
    }
}

impl Calls {
    fn lines(self) -> [(Tally, &'static str); 9] {
        [
            (self.vectors, "step vectors"),
            (self.first_hit, "first hits"),
            (self.listing, "listings through random rooms"),
            (
                self.block,
                "first hits of a block, turned into the run's cell",
            ),
            (self.made, "maps made"),
            (self.added, "maps added to"),
            (self.saving, "saved maps"),
            (self.reading, "files read, with up to two bytes changed"),
            (self.text, "texts, one in four with its report"),
        ]
    }
}

impl Kinds {
    // Counts a call whose run breaks both line limits, if it is refused for one.
    pub fn count_limits(&mut self, run: Run, judged: Judged, fine: bool) {
        let by_line = judged.is_err_and(|refusal| 17 <= refusal.number);
        self.two_limits
            .count_if(reference::breaks_two(run) && by_line, fine);
    }

    // Counts a call with two or more sources at fault, if it is refused for one.
    pub fn count_sources(&mut self, sources: Lists<'_>, judged: Judged, fine: bool) {
        let two = 2 <= reference::count_at_fault(sources);
        let by_source = judged.is_err_and(|refusal| refusal.place.is_some());
        self.two_sources.count_if(two && by_source, fine);
    }

    fn lines(self) -> [(Tally, &'static str); 10] {
        [
            (self.pair, "runs with a pair"),
            (self.single, "runs with a single vector"),
            (self.no_remainder, "runs with r = 0"),
            (self.short, "runs with p < I"),
            (self.equal, "runs with p = I"),
            (self.from_zero, "runs from line 0"),
            (self.phased, "runs with a phase above 0"),
            (
                self.single_phased,
                "runs with a single vector and a phase that g does not divide",
            ),
            (
                self.two_limits,
                "maps, files and texts refused for one of two line limits",
            ),
            (
                self.two_sources,
                "maps and texts refused for one of several sources",
            ),
        ]
    }
}

// All that is counted.
#[derive(Clone, Copy, Default)]
pub struct Ledger {
    pub examples: Examples,
    pub nines: Nines,
    pub refused: Refused,
    pub calls: Calls,
    pub kinds: Kinds,
}

impl Ledger {
    // Prints it.
    pub fn print(self, rt: &impl Print) -> io::Result<()> {
        print(rt, &self.examples.lines())?;
        print(rt, &self.nines.lines())?;
        print(rt, &self.refused.lines())?;
        print(rt, &self.calls.lines())?;
        print(rt, &self.kinds.lines())
    }
}
