// The test program: 01's bench figures without a star, examples from line 0, with phases and of maps that start clean, refusals with two
// faults at a time, and random small runs, with a fault here and there and two at once, through every operation, against a walk over all
// cells, 01's layout of a file and the table of refusals. Each line that it prints says how many cases of a kind were tried, and how many
// of them were bad.
// Every function is proved safe and ending; that none is bad is what the stored output holds the program to.
#![tactic(auto)]

mod figures;
mod files;
mod ledger;
mod listing;
mod mapping;
mod nines;
mod reports;
mod steps;
mod texts;
mod turning;

use ledger::{Calls, Kinds};
use mapping::MapCall;
use std::io;
use trying::draw::Case;
use trying::random::State;
use trying::{draw, reference};

const TURNS: u32 = 2000;

// Counts a case under its kinds, by the reference alone.
fn count_kinds(kinds: &mut Kinds, case: Case, fine: bool) {
    let Case { run, source, .. } = case;
    let remainder = run.interval.checked_rem(source.period).unwrap_or(0);
    let divisor = reference::greatest_common_divisor(remainder, source.period);
    let short = source.period < run.window;
    let single = !short && run.window <= divisor;
    let elsewhere = !source.phase.is_multiple_of(divisor);
    kinds.short.count_if(short, fine);
    kinds.single.count_if(single, fine);
    kinds.pair.count_if(!short && !single, fine);
    kinds.no_remainder.count_if(remainder == 0, fine);
    kinds.equal.count_if(source.period == run.window, fine);
    kinds.phased.count_if(source.phase != 0, fine);
    kinds.single_phased.count_if(single && elsewhere, fine);
    kinds.from_zero.count_if(run.first == 0, fine);
}

// The calls that know no map.
fn try_hits(calls: &mut Calls, kinds: &mut Kinds, case: Case) {
    let block = listing::block_agrees(case);
    calls.vectors.count(steps::vectors_agree(case));
    calls.first_hit.count(listing::first_hit_agrees(case));
    calls.listing.count(listing::listing_agrees(case));
    calls.block.count(block);
    count_kinds(kinds, case, block);
}

// The calls with a map, a file or a text.
fn try_maps(calls: &mut Calls, kinds: &mut Kinds, case: Case) {
    calls
        .made
        .count(mapping::map_agrees(MapCall::Make, kinds, case));
    calls
        .added
        .count(mapping::map_agrees(MapCall::Add, kinds, case));
    calls.saving.count(files::saving_agrees(case));
    calls.reading.count(files::reading_agrees(kinds, case));
    calls.text.count(texts::text_agrees(kinds, case));
}

// Tries all random cases. The first state is fixed, so that the same are drawn each time.
fn try_all(calls: &mut Calls, kinds: &mut Kinds) {
    let mut state = State(20261115);
    for _ in 0..TURNS {
        let case = draw::draw_case(state.next());
        try_hits(calls, kinds, case);
        try_maps(calls, kinds, case);
        state = case.state;
    }
}

// Tries the figures and examples, maps of nines, refusals with two faults at a time, then all random cases, and prints the counts.
fn main(rt: HostRuntime) -> io::Result<()> {
    let mut all = ledger::Ledger::default();
    figures::try_examples(&mut all.examples);
    texts::try_long(&mut all.examples.long_texts);
    nines::try_nines(&mut all.nines);
    figures::try_refused(&mut all.refused);
    try_all(&mut all.calls, &mut all.kinds);
    all.print(&rt)
}
