// The two map calls, compared with the walk over all cells.
use crate::ledger::Kinds;
use scope::{Refusal, Run};
use trying::draw::{Case, Drawn};
use trying::reference::{Judged, Lists, when};
use trying::refusals::agrees;
use trying::{draw, reference};

// Which of the two calls is made. Two steps go with each, the call and what is expected of it, which an enum keeps together where closures
// would be two beside one another.
#[derive(Clone, Copy)]
pub enum MapCall {
    // The plain one.
    Make,
    // The adding one.
    Add,
}

impl MapCall {
    // Makes the call.
    fn ask(self, run: Run, sources: Lists<'_>, map: &mut [u8]) -> Result<(), Refusal> {
        let Lists {
            periods,
            weights,
            phases,
        } = sources;
        match self {
            MapCall::Make => map::make_map(run, periods, weights, phases, map),
            MapCall::Add => map::add_to_map(run, periods, weights, phases, map),
        }
    }

    // Makes a map what it is to be after the call: from zeros for the plain one, whatever it held.
    fn expect(self, run: Run, sources: Lists<'_>, map: &mut [u8]) {
        match self {
            MapCall::Make => reference::expect_made(run, sources, map),
            MapCall::Add => reference::expect_added(run, sources, map),
        }
    }

    // Whether the call is refused so, or for no refusal is not, and makes of a map what is expected.
    pub fn makes(
        self,
        judged: Judged,
        run: Run,
        sources: Lists<'_>,
        map: &mut [u8],
        expected: &[u8],
    ) -> bool {
        agrees(self.ask(run, sources, map), judged) && *map == *expected
    }

    // Whether the call with a map of so many cells, up to 20, is refused so and leaves the map.
    pub fn refused(self, judged: Judged, run: Run, sources: Lists<'_>, size: usize) -> bool {
        let before = [170u8; 20];
        let mut map = before;
        let (Some(map), Some(before)) = (map.get_mut(..size), before.get(..size)) else {
            return false;
        };
        self.makes(judged, run, sources, map, before)
    }
}

// The refusals of a map call, in 01's order with E1's line limits and E5's phases, for a map of so many cells.
fn judge(run: Run, sources: Lists<'_>, cells: usize) -> Judged {
    let all = sources.count();
    reference::judge_run(run)?;
    when(
        all != sources.weights.len() || all != sources.phases.len(),
        10,
    )?;
    reference::judge_sources(sources)?;
    when(reference::cells(run) != cells, 9)
}

// Whether the call makes of a random map of a case what it is to be, or refuses and leaves it: with up to five sources, and a fault here
// and there.
pub fn map_agrees(call: MapCall, kinds: &mut Kinds, case: Case) -> bool {
    let state = case.state;
    let mut map = [0u8; 1025];
    let mut expected = [0u8; 1025];
    let size = draw::length(reference::cells(case.run), 1, state.past(20));
    let (Some(map), Some(expected)) = (map.get_mut(..size), expected.get_mut(..size)) else {
        return false;
    };
    let run = draw::spoilt_run(case.run, state);
    let drawn: Drawn<6> = draw::draw_sources(case, state, draw::how_seldom(40, state.past(40)));
    let count = state.below(6) as usize;
    let sources = drawn.cut(
        count,
        draw::length(count, 1, state.past(32)),
        draw::length(count, 1, state.past(38)),
    );
    let judged = judge(run, sources, size);
    state.fill(map);
    state.fill(expected);
    if judged.is_ok() {
        call.expect(run, sources, expected);
    }
    let fine = call.makes(judged, run, sources, map, expected);
    kinds.count_limits(run, judged, fine);
    kinds.count_sources(sources, judged, fine);
    fine
}
