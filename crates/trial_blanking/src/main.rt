// The test program of the blanking list: 02's stretches over 01's map, the ends of the ranges, every set of faults, and random small
// runs, with a fault here and there and two at once, against a walk over all cells and the table of refusals. Each line that it prints
// says how many cases of a kind were tried, and how many of them were bad. Every function is proved safe and ending; that none is bad is
// what the stored output holds the program to.
#![tactic(auto)]

mod comparing;
mod drawing;
mod examples;
mod faults;
mod ledger;
mod stretches;

use ledger::Kinds;
use std::io;
use trying::draw;
use trying::random::State;

const TURNS: u32 = 2000;

// Tries all random cases. The first state is fixed, so that the same are drawn each time.
fn try_all(kinds: &mut Kinds) {
    let mut state = State(20261116);
    for _ in 0..TURNS {
        let case = draw::draw_case(state.next());
        let fine = comparing::stretches_agree(kinds, case);
        kinds.all.count(fine);
        state = case.state;
    }
}

// Tries the examples, every set of faults, then all random cases, and prints the counts.
fn main(rt: HostRuntime) -> io::Result<()> {
    let mut all = ledger::Ledger::default();
    examples::try_example(&mut all.example);
    examples::try_ends(&mut all.ends);
    faults::try_sets(&mut all.ends.faults);
    try_all(&mut all.kinds);
    all.print(&rt)
}
