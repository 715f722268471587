// Saved maps, saved and read, compared with 01's layout. A file that is read has up to two bytes changed, most often with the check put
// right again, and one time in four other lines in block 0.
use crate::ledger::Kinds;
use scope::Run;
use trying::draw::Case;
use trying::numbers::low32;
use trying::random::State;
use trying::reference::{Judged, when};
use trying::refusals::agrees;
use trying::{draw, layout, reference};

// Whether saving a map is refused so and leaves a room, or for no refusal makes of it the file as laid down. Another room is the same
// before.
fn saves_as(judged: Judged, run: Run, map: &[u8], file: &mut [u8], expected: &mut [u8]) -> bool {
    if judged.is_ok() {
        layout::lay_down(run, map, expected);
    }
    agrees(saved::save(run, map, file), judged) && *file == *expected
}

// Whether saving a map of 20 cells is refused so and leaves the room, or for no refusal makes of it the file as laid down.
pub fn save_says(judged: Judged, run: Run) -> bool {
    saves_as(judged, run, &[1; 20], &mut [170; 1024], &mut [170; 1024])
}

// The refusals of saving so many cells into a room of so many bytes, in 01's order.
fn judge(run: Run, cells: usize, bytes: usize) -> Judged {
    reference::judge_run(run)?;
    let room = bytes != reference::file_length(cells);
    when(room || reference::cells(run) != cells, 9)
}

// Whether a random map of a case, with a fault here and there, is saved as it is to be.
pub fn saving_agrees(case: Case) -> bool {
    let state = case.state;
    let mut map = [0u8; 1025];
    let mut file = [170u8; 2049];
    let mut expected = [170u8; 2049];
    let cells = reference::cells(case.run);
    let size = draw::length(cells, 1, state.past(20));
    let bytes = draw::length(reference::file_length(cells), 512, state.past(26));
    state.fill(&mut map);
    let (Some(map), Some(file), Some(expected)) = (
        map.get(..size),
        file.get_mut(..bytes),
        expected.get_mut(..bytes),
    ) else {
        return false;
    };
    let run = draw::spoilt_run(case.run, state);
    saves_as(judge(run, size, bytes), run, map, file, expected)
}

// Whether reading is refused so and leaves a room, or for no refusal makes of it the file's map and answers with the file's run.
// Another room is the same before.
fn reads_as(judged: Judged, file: &[u8], room: &mut [u8], expected: &mut [u8]) -> bool {
    if judged.is_ok() {
        layout::put_cells(file, expected);
    }
    let run = judged.map(|()| layout::run_of(file));
    agrees(saved::read(file, room), run) && *room == *expected
}

// Whether a file of two blocks, both checks right, with a run in block 0 and 20 cells, is read so.
pub fn read_says(judged: Judged, run: Run) -> bool {
    let mut file = [0u8; 1024];
    layout::lay_down(run, &[1; 20], &mut file);
    reads_as(judged, &file, &mut [170; 20], &mut [170; 20])
}

// A position of a file: of a block's number, in the heading, in its filling, near the end of the last block, or anywhere.
fn position(bytes: usize, state: State) -> usize {
    let any = state.past(16).0.checked_rem(bytes as u64).unwrap_or(0) as usize;
    match state.0 % 8 {
        0 => any / 512 * 512,
        1..=3 => 4 + any % 20,
        4 => 24 + any % 484,
        5 => bytes.wrapping_sub(5 + any % 16),
        _ => any,
    }
}

// Changes a bit of a file one time in two, most often with the check put right.
fn damage(file: &mut [u8], bytes: usize, state: State) {
    let at = position(bytes, state.past(4));
    if state.0 % 2 == 0 {
        return;
    }
    if let Some(byte) = file.get_mut(at) {
        *byte ^= 1u8.wrapping_shl(low32(state.past(40).0));
    }
    if 4 <= state.0 % 16 {
        layout::seal(file, at);
    }
}

// Whether the file of a case and a random map is read as it is to be, with other lines, up to two bytes changed and a wrong length
// here and there. After it stand sound blocks.
pub fn reading_agrees(kinds: &mut Kinds, case: Case) -> bool {
    let state = case.state;
    let later = state.next();
    let mut map = [0u8; 1024];
    let mut file = [0u8; 2560];
    let mut room = [170u8; 1025];
    let mut expected = [170u8; 1025];
    let cells = reference::cells(case.run);
    let bytes = reference::file_length(cells);
    let Some(map) = map.get_mut(..cells) else {
        return false;
    };
    state.fill(map);
    layout::lay_down(draw::spoilt_lines(case.run, later.next()), map, &mut file);
    damage(&mut file, bytes, state);
    damage(&mut file, bytes, later);
    let size = draw::length(cells, 1, state.past(20));
    let (Some(file), Some(room), Some(expected)) = (
        file.get(..draw::length(bytes, 512, state.past(26))),
        room.get_mut(..size),
        expected.get_mut(..size),
    ) else {
        return false;
    };
    let judged = layout::judge(file, size);
    let fine = reads_as(judged, file, room, expected);
    kinds.count_limits(layout::run_of(file), judged, fine);
    fine
}
