// One block of a saved map, a file block: 512 bytes, its number before its contents and its check behind; written, and judged.
// Every function is proved. No function here is a public operation: each is an inner step of the crates above.
#![tactic(auto)]

ghost use Rattle.std.specs.Prelude.{◌≡◌, ◌+◌, ◌*◌, ◌≤◌, ◌<◌, length, drop};
ghost use Rattle.rooms.specs.Lists.{zeros};
ghost use Rattle.scope.specs.Refusal.{complaint};
ghost use Rattle.scope.specs.Inner.{verdict};
ghost use Rattle.fileblocks.specs.FileBlock.{file_block_bytes, content_bytes, check_at, four, four_at, check_of, file_block_of, all_zero, sealed_with, file_block_tests};

use rooms::copy;
use scope::{Reason, Refusal};

// A file block has so many bytes: its number, its contents, its check.
pub const FILE_BLOCK_BYTES: usize = 512;
// Its contents stand from this byte on.
pub const CONTENT_AT: usize = 4;
// They are so many bytes.
pub const CONTENT_BYTES: usize = 504;
// Its check stands from this byte on.
const CHECK_AT: usize = 508;

// The check of a block, 1 and the sum of (k+1)·byte k, in two columns as a spreadsheet has them: row 1 has byte 507, row 508 byte 0. A
// row's total is the total above it and its byte, and the sum adds up the totals: byte k is in k+1 of them. None of the 508 totals is
// above 508·255, so that 32 bits hold the sum. The rows go by number, so that another order of the bytes or one more is an edit of a number.
fn check(block: &[u8]) -> u32
    requires { check_at ≤ length block.now }
    ensures { result ≡ check_of block.now }
{
    let mut total: u32 = 0;
    let mut sum: u32 = 0;
    for row in 1..CHECK_AT + 1 {
        let above = total;
        total = above + u32::from(block[CHECK_AT - row]);
        sum += total;
    }
    sum + 1
}

// Inner step. The number that the four bytes from `at` on stand for, the lowest first. An array of the four by `first_chunk` is no plainer:
// that they are there is known, and would be asked once more.
pub fn four_at(bytes: &[u8], at: usize) -> u32
    requires { at + 4 ≤ length bytes.now }
    ensures { result ≡ four_at bytes.now at }
{
    u32::from_le_bytes([bytes[at], bytes[at + 1], bytes[at + 2], bytes[at + 3]])
}

// Inner step. Writes a number as four bytes, the lowest first.
pub fn put_four(room: &mut [u8], number: u32)
    requires { length room.old ≡ 4 }
    ensures { room.new ≡ four number }
{
    room.copy_from_slice(&number.to_le_bytes());
}

// Inner step. Whether every byte from `from` on is zero; of no bytes that is so.
pub fn zeros_from(bytes: &[u8], from: usize) -> bool
    ensures { result ≡ all_zero (drop from bytes.now) }
{
    bytes[from.min(bytes.len())..].iter().all(|byte| *byte == 0)
}

// Inner step. Writes the block with this number that holds these bytes, filled up with zeros. The parts follow each other from the front;
// the check comes last, over what then stands there, so that nothing the room held before counts.
// The block stays a slice, its length asked for, where a block that is judged is an array: of a room that is cut into arrays
// (`as_chunks_mut`) nothing is known once they are written.
pub fn write_file_block(number: u32, bytes: &[u8], block: &mut [u8])
    requires { (length bytes.now ≤ content_bytes) × (length block.old ≡ file_block_bytes) }
    ensures { block.new ≡ file_block_of number bytes.now }
{
    let end = CONTENT_AT + bytes.len();
    put_four(&mut block[0..CONTENT_AT], number);
    copy(bytes, &mut block[CONTENT_AT..end]);
    block[end..CHECK_AT].fill(0);
    let sum = check(block);
    put_four(&mut block[CHECK_AT..FILE_BLOCK_BYTES], sum);
}

// Whether a block has this number and the check of its bytes.
fn is_sealed(number: u32, block: &[u8; FILE_BLOCK_BYTES]) -> bool
    ensures { result ≡ sealed_with number block.now }
{
    four_at(block, 0) == number && four_at(block, CHECK_AT) == check(block)
}

// Inner step. What the table says of a block that is to have this number and to hold `size` bytes: 14 for the number or the check,
// then 15 for the filling behind those bytes. A full block has none.
pub fn judge_file_block(
    number: u32,
    size: usize,
    block: &[u8; FILE_BLOCK_BYTES],
) -> Result<(), Refusal>
    ensures { result ≡ verdict (complaint (file_block_tests number size block.now)) }
{
    let sealed = is_sealed(number, block);
    let filled = zeros_from(&block[CONTENT_AT..CHECK_AT], size);
    Reason::Check.when(!sealed)?;
    Reason::Layout.when(!filled)
}
