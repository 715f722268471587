// First hit and listing, compared with a walk over the cells of a run.
use crate::turning;
use hits::Listing;
use scope::{Refusal, Run, RunCell, Source};
use trying::draw::Case;
use trying::numbers::product;
use trying::random::State;
use trying::reference::{Judged, Listed, when};
use trying::refusals::agrees;
use trying::{draw, reference};

// What a room holds before a call, so that what is stored there shows. It is no cell of any run.
const NO_CELL: u64 = 18446744073709551614;

// A run of more cells is not walked: of its hits only that they are told is looked at here, and the Rust tests tell which they are.
const WALKED: usize = 1024;

// What the first hit and the listing are asked.
#[derive(Clone, Copy)]
pub struct Asked {
    pub run: Run,
    pub source: Source,
    pub start: u64,
}

impl Asked {
    // What is asked of a case, with a fault here and there. The start is in the run, or now and then after it.
    fn draw(case: Case) -> Asked {
        let state = case.state;
        let run = draw::spoilt_run(case.run, state);
        let cells = reference::cells(run) as u64;
        let starts = cells.wrapping_add(cells / 8 + 1);
        Asked {
            run,
            source: draw::spoilt_source(case.source, state.past(9), 16),
            start: state.past(16).0.checked_rem(starts).unwrap_or(0),
        }
    }

    // The refusals of both calls, but for an empty room.
    fn judge(self) -> Judged {
        reference::judge_run(self.run)?;
        reference::judge_source(self.source)?;
        when(reference::cells(self.run) as u64 <= self.start, 8)
    }

    // Whether the run is walked.
    fn is_walked(self) -> bool {
        reference::cells(self.run) <= WALKED
    }

    // The reply of the first hit.
    fn first_hit(self) -> Result<Option<RunCell>, Refusal> {
        hits::first_hit(self.run, self.source, RunCell(self.start))
    }

    // The reply of a listing.
    fn list(self, room: &mut [u64]) -> Result<Listed, Refusal> {
        let Listing { count, next } = hits::list_hits(
            self.run,
            self.source,
            RunCell(self.start),
            room,
        )?;
        Ok(Listed {
            count,
            next: next.map(|cell| cell.0),
        })
    }

    // Whether the first hit is refused so, or for no refusal is not.
    pub fn first_says(self, judged: Judged) -> bool {
        agrees(self.first_hit().map(|_| ()), judged)
    }

    // Whether the first hit is the starting cell.
    pub fn first_is_start(self) -> bool {
        agrees(self.first_hit(), Ok(Some(RunCell(self.start))))
    }

    // Whether listing into a room of so many places, up to 8, is refused so and leaves the room, or for no refusal is not.
    pub fn listing_says(self, judged: Judged, size: usize) -> bool {
        let mut room = [NO_CELL; 8];
        let Some(room) = room.get_mut(..size) else {
            return false;
        };
        let fine = agrees(self.list(room).map(|_| ()), judged);
        fine && (judged.is_ok() || is_untouched(room))
    }

    // Whether listing into a room of eight places is done with these hits, and leaves the rest of the room.
    pub fn lists(self, hits: &[u64]) -> bool {
        let mut room = [NO_CELL; 8];
        let done = Listed {
            count: hits.len(),
            next: None,
        };
        agrees(self.list(&mut room), Ok(done))
            && room.starts_with(hits)
            && room
                .get(hits.len()..)
                .is_some_and(|rest| is_untouched(rest))
    }

    // What one listing into a room of so many places, up to 8, is to answer; nothing, if it answers or writes anything else.
    fn list_once(self, size: usize) -> Option<Listed> {
        let mut room = [NO_CELL; 8];
        let mut expected = [NO_CELL; 8];
        let room = room.get_mut(..size)?;
        let expected = expected.get_mut(..size)?;
        let listed = reference::expect_listing(self.run, self.source, self.start, expected);
        let fine = agrees(self.list(room), Ok(listed)) && *room == *expected;
        fine.then_some(listed)
    }
}

// Whether a room holds what it held before.
fn is_untouched(room: &[u64]) -> bool {
    room.iter().all(|cell| *cell == NO_CELL)
}

// Whether the first hit of a case, with a fault here and there, is as it is to be.
pub fn first_hit_agrees(case: Case) -> bool {
    let asked = Asked::draw(case);
    let judged = asked.judge();
    if judged.is_err() || !asked.is_walked() {
        return asked.first_says(judged);
    }
    let hit = reference::first_hit(asked.run, asked.source, asked.start);
    agrees(asked.first_hit(), Ok(hit.map(RunCell)))
}

// Whether a block's first hit, its cell turned into the run's, is the run's first hit from the block's first line on: of a case, cut at a
// random line.
pub fn block_agrees(case: Case) -> bool {
    let Case { run, source, state } = case;
    let lines = run.last.wrapping_sub(run.first).wrapping_add(1);
    let before = state.below(lines);
    let first = run.first.wrapping_add(before);
    let block = Run { first, ..run };
    let hit = reference::first_hit(run, source, product(run.window, before));
    let asked = Asked {
        run: block,
        source,
        start: 0,
    };
    match asked.first_hit() {
        Ok(None) => hit.is_none(),
        Ok(Some(cell)) => hit.is_some_and(|hit| turning::in_run(run, first, cell)
            == Some(RunCell(hit))),
        Err(_) => false,
    }
}

// Whether the listings from a cell on, each with a random room and from where the one before is to stop, are as they are to be.
fn list_all(asked: Asked, state: State) -> bool {
    let mut asked = asked;
    let mut state = state;
    for _ in 0..reference::cells(asked.run) {
        state = state.next();
        let Some(listed) = asked.list_once(state.up_to(6) as usize) else {
            return false;
        };
        let Some(next) = listed.next else {
            return true;
        };
        asked.start = next;
    }
    false
}

// Whether the listing of a case, with a fault here and there, is as it is to be.
pub fn listing_agrees(case: Case) -> bool {
    let asked = Asked::draw(case);
    let size = case.state.below(8) as usize;
    let judged = asked.judge().and_then(|()| when(size == 0, 9));
    if judged.is_err() || !asked.is_walked() {
        return asked.listing_says(judged, size);
    }
    list_all(asked, case.state)
}
