// The blanking call, compared with the stretches of the lines that a walk over all cells marks.
use crate::ledger::Kinds;
use crate::stretches::Asked;
use crate::{drawing, stretches};
use blanking::Guard;
use scope::Refusal;
use trying::draw::Case;
use trying::random::State;
use trying::reference::Judged;
use trying::refusals::agrees;
use trying::{draw, reference};

// What a room holds before a call, so that what is stored there shows. It is no line of any run.
pub const NO_LINE: u32 = 4294967294;

// The reply of the call: how many stretches there are, or a refusal.
fn ask(asked: Asked, map: &[u8], room: &mut [u32]) -> Result<usize, Refusal> {
    let Asked {
        run,
        threshold,
        lowest,
        highest,
    } = asked;
    let guard = Guard { lowest, highest };
    blanking::list_stretches(run, map, threshold, guard, room)
}

// Whether the call answers with so many stretches, or is refused so, and makes of a room what is expected.
pub fn replies(
    reply: Result<usize, reference::Refusal>,
    asked: Asked,
    map: &[u8],
    room: &mut [u32],
    expected: &[u32],
) -> bool {
    agrees(ask(asked, map, room), reply) && *room == *expected
}

// Whether the call makes of a random room, of up to 24 numbers, what it is to be, or refuses and leaves it, given the marked lines and what
// it is refused for before the room is looked at.
fn lists(
    kinds: &mut Kinds,
    early: Judged,
    asked: Asked,
    map: &[u8],
    marks: &[bool],
    state: State,
) -> bool {
    let mut room = [NO_LINE; 24];
    let mut expected = [NO_LINE; 24];
    let count = stretches::count(marks);
    let size = drawing::room_size(count, state);
    let (Some(room), Some(expected)) = (room.get_mut(..size), expected.get_mut(..size)) else {
        return false;
    };
    let judged = early.and_then(|()| stretches::judge_room(size, count));
    if judged.is_ok() {
        stretches::expect_stretches(asked.run.first, marks, expected);
    }
    let fine = replies(judged.map(|()| count), asked, map, room, expected);
    kinds.count_refused(asked, map.len(), judged, fine);
    if judged.is_ok() {
        kinds.count_lines(asked.run, marks, fine);
        kinds.count_rooms(asked, count, size, fine);
    }
    fine
}

// Whether the stretches of a random map of a case, with a fault here and there, are as they are to be. The map has up to 1,025 cells and so
// up to 512 lines. If the call is refused before its room is looked at, no line is marked.
pub fn stretches_agree(kinds: &mut Kinds, case: Case) -> bool {
    let state = case.state;
    let mut map = [0u8; 1025];
    let mut marks = [false; 512];
    let size = draw::length(reference::cells(case.run), 1, state.past(20));
    let Some(map) = map.get_mut(..size) else {
        return false;
    };
    drawing::draw_map(case, map);
    let asked = drawing::draw_asked(case, map);
    let early = asked.judge(map.len());
    let whole = map.len().checked_div(asked.run.window as usize);
    let lines = early.map_or(0, |()| whole.unwrap_or(0));
    let Some(marks) = marks.get_mut(..lines) else {
        return false;
    };
    asked.mark_lines(map, marks);
    lists(kinds, early, asked, map, marks, state)
}
