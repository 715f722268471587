// Texts, written from a run and its sources, in either spelling of phase 0, and read as just that, or refused.
use crate::ledger::Kinds;
use crate::nines::EXAMPLE;
use crate::reports;
use scope::Run;
use std::io;
use std::io::Write;
use trying::draw::{Case, Drawn};
use trying::numbers::first;
use trying::random::State;
use trying::reference::{Judged, Lists, alone, when};
use trying::refusals::agrees;
use trying::spelling::{Text, text_of, written};
use trying::tally::Tally;
use trying::{draw, reference};

// Whether a text is refused so.
pub fn refused(text: &[u8], judged: Judged) -> bool {
    judged.is_err() && agrees(text::read_text(text).map(|_| ()), judged)
}

// Whether a text is read as a run and these sources.
fn accepted(text: &[u8], run: Run, sources: Lists<'_>) -> bool {
    let Ok(input) = text::read_text(text) else {
        return false;
    };
    input.run == run
        && *first(&input.periods, input.count) == *sources.periods
        && *first(&input.weights, input.count) == *sources.weights
        && *first(&input.phases, input.count) == *sources.phases
}

// Whether a text is refused so; or, for no refusal, is read as a run and these sources.
fn reads(text: &[u8], judged: Judged, run: Run, sources: Lists<'_>) -> bool {
    match judged {
        Ok(()) => accepted(text, run, sources),
        Err(_) => refused(text, judged),
    }
}

// What makes a text malformed: how many bytes are taken from its end, and the words that are put there.
const FAULTS: [(u64, &str); 12] = [
    (1, ""),
    (0, "\n"),
    (1, " \n"),
    (1, "\r\n"),
    (0, "src 1\n"),
    (0, "scr 1 1\n"),
    (0, "src 01 1\n"),
    (0, "src  1 1\n"),
    (0, "src 1 1"),
    (0, "src 4294967296 1\n"),
    (0, "src 1 1 4294967296\n"),
    (0, "src 1 1 0 0\n"),
];

// Makes a text malformed, one time in eight.
fn spoil(text: &mut Text, state: State) -> io::Result<()> {
    let Some((dropped, words)) = FAULTS.get((state.0 % 96) as usize) else {
        return Ok(());
    };
    text.set_position(text.position().saturating_sub(*dropped));
    text.write_all(words.as_bytes())
}

// The refusals of a text, in 01's order with E1's line limits and E5's phases, given whether it is malformed.
fn judge(malformed: bool, run: Run, sources: Lists<'_>) -> Judged {
    when(malformed, 11)?;
    reference::judge_run(run)?;
    when(64 < sources.count() || 65536 < reference::cells(run), 12)?;
    reference::judge_sources(sources)
}

// Whether the text of a run and its sources, malformed now and then, is read as it is to be; and whether every fourth
// is reported so. That a text is written fails for none, since its room holds the longest.
fn text_is(kinds: &mut Kinds, run: Run, sources: Lists<'_>, state: State) -> io::Result<bool> {
    let mut text = text_of(run, sources, state)?;
    let right = text.position();
    spoil(&mut text, state)?;
    let judged = judge(text.position() != right, run, sources);
    let bytes = written(&text);
    let reported = state.0 % 4 != 0 || reports::report_agrees(bytes, judged, run, sources);
    let fine = reported && reads(bytes, judged, run, sources);
    kinds.count_limits(run, judged, fine);
    kinds.count_sources(sources, judged, fine);
    Ok(fine)
}

// A run from line 0 of 65,536 cells or just more, or the run as it was.
fn sized_run(run: Run, state: State) -> Run {
    let more = state.past(4).0 % 2 == 1;
    let (window, last) = match (state.0 % 16, more) {
        (0, false) => (2, 32767),
        (0, true) => (2, 32768),
        (1, false) => (4096, 15),
        (1, true) => (4096, 16),
        _ => return run,
    };
    Run {
        window,
        interval: run.interval,
        first: 0,
        last,
    }
}

// How many sources a text has: now and then 64 or 65.
fn count_of(state: State) -> usize {
    match state.0 % 16 {
        0 => 64,
        1 => 65,
        _ => (state.0 % 13) as usize,
    }
}

// Whether the text of a case, with a fault here and there, is read and reported as it is to be.
pub fn text_agrees(kinds: &mut Kinds, case: Case) -> bool {
    let state = case.state;
    let count = count_of(state.past(3));
    let run = draw::spoilt_run(sized_run(case.run, state.past(12)), state.past(1));
    let seldom = draw::how_seldom(if count < 13 { 60 } else { 500 }, state.past(40));
    let drawn: Drawn<65> = draw::draw_sources(case, state, seldom);
    text_is(kinds, run, drawn.first(count), state.past(32)).unwrap_or(false)
}

// A text of 01's run and 510 sources, the first with this period, of so many bytes, is refused so.
fn try_length(tally: &mut Tally, period: u32, bytes: usize, judged: Judged) {
    let mut periods = [1u32; 510];
    periods[0] = period;
    let sources = Lists {
        periods: &periods,
        weights: &[1; 510],
        phases: &[0; 510],
    };
    let fine = text_of(EXAMPLE, sources, State(0)).is_ok_and(|text| {
        let text = written(&text);
        text.len() == bytes && refused(text, judged)
    });
    tally.count(fine);
}

// A text of 4,096 bytes is read, and refused 12 for its sources; one of 4,097 bytes is refused 11.
pub fn try_long(tally: &mut Tally) {
    try_length(tally, 1000, 4096, alone(12));
    try_length(tally, 10000, 4097, alone(11));
}
