// 01's two bench figures without a star, by running the calls: a window of 6 with a period of 4, which crate figures proves as well,
// and the last line there is, which is 18 since E1. Then runs that begin at line 0, as since E2 they may; sources with a phase, as E5 has
// them; and line limits, and sources at fault in a list, two faults at a time, as 02 has them refused.
use crate::ledger::{Examples, Refused};
use crate::listing::Asked;
use crate::mapping::MapCall;
use crate::{files, reports, steps, texts};
use scope::{Run, Source};
use trying::reference::{Judged, Lists, alone, at_place};
use trying::tally::Tally;

// A run with a window of 4. (`Run::new` would name no number that differs.)
fn run_of(interval: u32, first: u32, last: u32) -> Run {
    Run {
        window: 4,
        interval,
        first,
        last,
    }
}

// A run, a source with a phase, and a starting cell.
fn ask(run: Run, period: u32, phase: u32, start: u64) -> Asked {
    Asked {
        run,
        source: Source { period, phase },
        start,
    }
}

// I 6 with p 4: refused 6.
fn try_wide(tally: &mut Tally) {
    let asked = steps::Asked {
        period: 4,
        remainder: 1,
        window: 6,
    };
    tally.count(asked.says(alone(6)));
}

// The last line 16,777,216 is accepted, 16,777,217 is refused 18.
fn try_last(tally: &mut Tally) {
    let last = run_of(10, 0, 16777216);
    let above = run_of(10, 0, 16777217);
    tally.count(ask(last, 7, 0, 0).first_says(Ok(())));
    tally.count(ask(above, 7, 0, 0).first_says(alone(18)));
}

// Reports of runs that begin at line 0: the sources of 01's example, and one line without a source.
fn try_from_zero(tally: &mut Tally) {
    let text = b"run 4 10 0 5\nsrc 7 60\nsrc 3 200\n";
    let printed =
        b"run 4 10 0 5 24\nsrc 1 7 60 0 4\nsrc 2 3 200 0 8\nmap 2 255\nmap 4 200\nmap 7 200\nmap 9 255\n\
          map 14 200\nmap 16 255\nmap 19 200\nmap 21 200\nmap 23 60\nend 9\n";
    tally.count(reports::reports(text, printed));
    tally.count(reports::reports(b"run 2 1 0 0\n", b"run 2 1 0 0 2\nend 0\n"));
}

// The file of such a run, of 20 cells, is read, and written as it was laid down.
fn try_zero_file(tally: &mut Tally) {
    let run = run_of(10, 0, 4);
    tally.count(files::read_says(Ok(()), run));
    tally.count(files::save_says(Ok(()), run));
}

// The last cell of the largest run there is, which is hit, and the number after it, which is refused 8: as a start of the first hit and
// of a listing.
fn try_last_cell(tally: &mut Tally) {
    let run = Run {
        window: 4096,
        interval: 10,
        first: 0,
        last: 16777216,
    };
    let last = ask(run, 7, 0, 68719480831);
    let after = ask(run, 7, 0, 68719480832);
    tally.count(last.first_is_start());
    tally.count(after.first_says(alone(8)));
    tally.count(last.lists(&[last.start]));
    tally.count(after.listing_says(alone(8), 8));
}

// Reports on sources with a phase: one beside a source without, and one with the largest phase there is.
fn try_phased(tally: &mut Tally) {
    let text = b"run 4 10 0 5\nsrc 7 60 2\nsrc 3 200\n";
    let printed =
        b"run 4 10 0 5 24\nsrc 1 7 60 2 4\nsrc 2 3 200 0 8\nmap 0 60\nmap 2 200\nmap 4 200\nmap 7 255\nmap 9 200\n\
          map 14 255\nmap 16 200\nmap 19 200\nmap 21 255\nend 9\n";
    let largest = b"run 4 10 0 5\nsrc 2147483647 1 2147483646\n";
    let once = b"run 4 10 0 5 24\nsrc 1 2147483647 1 2147483646 1\nmap 3 1\nend 1\n";
    tally.count(reports::reports(text, printed));
    tally.count(reports::reports(largest, once));
}

// A single vector with a phase, interval and period 9, lines 0 to 5: at phase 1 every line is hit at offset -1, at phase 4 none.
fn try_phase_listed(tally: &mut Tally) {
    let run = run_of(9, 0, 5);
    tally.count(ask(run, 9, 1, 0).lists(&[1, 5, 9, 13, 17, 21]));
    tally.count(ask(run, 9, 4, 0).lists(&[]));
}

// Tries the bench figures, examples from line 0 and with phases, and the last cell there is.
pub fn try_examples(examples: &mut Examples) {
    try_wide(&mut examples.wide);
    try_last(&mut examples.last);
    try_from_zero(&mut examples.from_zero);
    try_zero_file(&mut examples.zero_file);
    try_phased(&mut examples.phased);
    try_phase_listed(&mut examples.phase_listed);
    try_last_cell(&mut examples.last_cell);
}

// Tries a run in the four calls with a map, with sources at fault where there are any: each is to refuse so.
fn try_map_lines(tally: &mut Tally, judged: Judged, run: Run) {
    let sources = Lists {
        periods: &[7, 0],
        weights: &[256, 0],
        phases: &[7, 0],
    };
    tally.count(MapCall::Make.refused(judged, run, sources, 20));
    tally.count(MapCall::Add.refused(judged, run, sources, 20));
    tally.count(files::save_says(judged, run));
    tally.count(files::read_says(judged, run));
}

// Tries a text: it is refused so, and its report is the line of that.
fn try_text(tally: &mut Tally, text: &[u8], judged: Judged, printed: &[u8]) {
    tally.count(texts::refused(text, judged));
    tally.count(reports::reports(text, printed));
}

// Tries a run with these lines and an interval of 0 in each of the calls with a run besides the blanking list, which crate trial_blanking
// tries, and those with a text, with sources at fault where there are any: each is to refuse so.
fn try_lines(tally: &mut Tally, first: u32, last: u32, judged: Judged) {
    let run = run_of(0, first, last);
    let asked = ask(run, 0, 0, 0);
    tally.count(asked.first_says(judged));
    tally.count(asked.listing_says(judged, 8));
    try_map_lines(tally, judged, run);
}

// Line limits, none broken alone: the interval is 0 in every run, and a last line above its limit stands before the first line too. The
// texts are those of the runs alone.
fn try_limits(refused: &mut Refused) {
    let order = alone(17);
    let last = alone(18);
    try_lines(&mut refused.line_order, 7, 6, order);
    try_lines(&mut refused.high_order, 16777219, 16777218, order);
    try_lines(&mut refused.last_line, 0, 16777217, last);
    try_text(
        &mut refused.line_order,
        b"run 4 0 7 6\n",
        order,
        b"refused 17\n",
    );
    try_text(
        &mut refused.high_order,
        b"run 4 0 16777219 16777218\n",
        order,
        b"refused 17\n",
    );
    try_text(
        &mut refused.last_line,
        b"run 4 0 0 16777217\n",
        last,
        b"refused 18\n",
    );
}

// A text whose second and third source are at fault, the second in its period and its weight.
fn try_text_source(tally: &mut Tally) {
    let text = b"run 4 10 1 5\nsrc 7 60\nsrc 0 0\nsrc 9 0\n";
    try_text(tally, text, at_place(4, 2), b"refused 4 source 2\n");
}

// Lists at fault, in a map call with a map one cell short: a weight, with a phase beside it that is at fault too, and a phase.
fn try_map_source(tally: &mut Tally, call: MapCall) {
    let run = run_of(10, 1, 5);
    let heavy = Lists {
        periods: &[7, 3],
        weights: &[60, 256],
        phases: &[6, 3],
    };
    let late = Lists {
        weights: &[60, 255],
        ..heavy
    };
    tally.count(call.refused(at_place(7, 2), run, heavy, 19));
    tally.count(call.refused(at_place(22, 2), run, late, 19));
}

// Lists at fault in a text: 7 comes before 22, and 4 before both. A fifth word is 11.
fn try_phase(tally: &mut Tally) {
    let period = at_place(4, 1);
    let weight = at_place(7, 1);
    let phase = at_place(22, 1);
    try_text(
        tally,
        b"run 4 10 0 5\nsrc 0 1 0\n",
        period,
        b"refused 4 source 1\n",
    );
    try_text(
        tally,
        b"run 4 10 0 5\nsrc 7 0 7\n",
        weight,
        b"refused 7 source 1\n",
    );
    try_text(
        tally,
        b"run 4 10 0 5\nsrc 7 1 7\n",
        phase,
        b"refused 22 source 1\n",
    );
    try_text(
        tally,
        b"run 4 10 0 5\nsrc 7 60 2 1\n",
        alone(11),
        b"refused 11\n",
    );
}

// Tries refusals with two faults at a time: of the line limits, and of sources, in a text and in the map calls.
pub fn try_refused(refused: &mut Refused) {
    try_limits(refused);
    try_text_source(&mut refused.text_source);
    try_map_source(&mut refused.map_source, MapCall::Make);
    try_map_source(&mut refused.map_source, MapCall::Add);
    try_phase(&mut refused.phase);
}
