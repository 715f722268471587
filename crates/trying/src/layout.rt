// 01's layout of a saved map, byte by byte: the file of a run and a map, and what is wrong with a file. Of the library only the type of a
// run is used here, and no code. The sizes stand as 01 has them.
use crate::numbers::low32;
use crate::reference;
use crate::reference::{Judged, alone, when};
use scope::Run;

// A block of a file.
type Block = [u8; 512];

// The number in the four bytes from a position on, the lowest first; 0 if they are not there.
fn number_at(bytes: &[u8], at: usize) -> u32 {
    bytes
        .get(at..)
        .and_then(|later| later.first_chunk::<4>())
        .map_or(0, |number| u32::from_le_bytes(*number))
}

// Puts a number into the four bytes of a block from a position on. Byte by byte: `zip` ends with the shorter, so that no length is asked.
fn put_number(block: &mut Block, at: usize, number: u32) {
    let place = block.iter_mut().skip(at);
    for (byte, value) in place.zip(number.to_le_bytes()) {
        *byte = value;
    }
}

// 1 + the sum of (k + 1)·byte k of a block, k from 0 to 507.
fn check(block: &Block) -> u32 {
    block[..508].iter().zip(1u32..).fold(
        1u32,
        |sum, (byte, k)| sum.wrapping_add(k.wrapping_mul(u32::from(*byte))),
    )
}

// Puts the right check into a block.
fn put_check(block: &mut Block) {
    let sum = check(block);
    put_number(block, 508, sum);
}

// Puts the right check into the block that a position of a file is in.
pub fn seal(file: &mut [u8], at: usize) {
    let (blocks, _) = file.as_chunks_mut::<512>();
    if let Some(block) = blocks.get_mut(at / 512) {
        put_check(block);
    }
}

// Puts block 0: its number 0, the version, the numbers of a run, zeros, the check.
fn put_heading(run: Run, block: &mut Block) {
    block.fill(0);
    put_number(block, 4, 1);
    put_number(block, 8, run.window);
    put_number(block, 12, run.interval);
    put_number(block, 16, run.first);
    put_number(block, 20, run.last);
    put_check(block);
}

// Puts a later block: its number, up to 504 cells (byte by byte, as above), zeros, the check.
fn put_later(number: u32, cells: &[u8], block: &mut Block) {
    block.fill(0);
    put_number(block, 0, number);
    for (byte, cell) in block[4..508].iter_mut().zip(cells) {
        *byte = *cell;
    }
    put_check(block);
}

// Puts a file as 01 lays it down. Blocks past those of the map hold zeros.
pub fn lay_down(run: Run, map: &[u8], file: &mut [u8]) {
    let (blocks, _) = file.as_chunks_mut::<512>();
    let Some((heading, later)) = blocks.split_first_mut() else {
        return;
    };
    put_heading(run, heading);
    for (k, block) in later.iter_mut().enumerate() {
        let cells = map.chunks(504).nth(k).unwrap_or(&[]);
        put_later(low32(k as u64).wrapping_add(1), cells, block);
    }
}

// The run that block 0 tells. (Of the library the type alone, and no `Run::new`.)
pub fn run_of(file: &[u8]) -> Run {
    Run {
        window: number_at(file, 8),
        interval: number_at(file, 12),
        first: number_at(file, 16),
        last: number_at(file, 20),
    }
}

// Whether bytes are all zero.
fn zeros(bytes: &[u8]) -> bool {
    bytes.iter().all(|byte| *byte == 0)
}

// 14: the number or the check of a block is wrong.
fn judge_sealed(number: usize, block: &Block) -> Judged {
    let named = number_at(block, 0) as usize == number;
    when(!named || number_at(block, 508) != check(block), 14)
}

// 15 of block 0: version, bytes 5-7 or bytes 24-507 not as laid down.
fn judge_heading(block: &Block) -> Judged {
    when(number_at(block, 4) != 1 || !zeros(&block[24..508]), 15)
}

// 15 of a later block: what is after the last of its cells, so many, is not zero.
fn judge_filling(block: &Block, cells: usize) -> Judged {
    let filling = block[4..508].iter().skip(cells);
    when(filling.copied().any(|byte| byte != 0), 15)
}

// 14 before 15, block by block after block 0.
fn judge_blocks(blocks: &[Block], cells: usize) -> Judged {
    let mut left = cells;
    for (number, block) in blocks.iter().enumerate().skip(1) {
        judge_sealed(number, block)?;
        judge_filling(block, left)?;
        left = left.saturating_sub(504);
    }
    Ok(())
}

// The refusals of reading a file into room for so many cells, in 01's order, with E1's line limits.
pub fn judge(file: &[u8], room: usize) -> Judged {
    let (blocks, rest) = file.as_chunks::<512>();
    let Some(heading) = blocks.first() else {
        return alone(13);
    };
    let run = run_of(file);
    let cells = reference::cells(run);
    when(!rest.is_empty(), 13)?;
    judge_sealed(0, heading)?;
    judge_heading(heading)?;
    reference::judge_run(run)?;
    when(file.len() != reference::file_length(cells), 13)?;
    judge_blocks(blocks, cells)?;
    when(cells != room, 9)
}

// Puts the cells of a file into a map.
pub fn put_cells(file: &[u8], map: &mut [u8]) {
    let (blocks, _) = file.as_chunks::<512>();
    for (cells, block) in map.chunks_mut(504).zip(blocks.iter().skip(1)) {
        cells.copy_from_slice(&block[4..4 + cells.len()]);
    }
}
