// The saved map of document 01: a file of blocks of 512 bytes, each with its number before its contents and its check behind.
// Every function is proved. `save` and `read` are the public operations; the others are inner steps of these.
#![tactic(auto)]

ghost use Rattle.std.specs.Prelude.{◌≡◌, ◌+◌, ◌*◌, ◌≤◌, ◌<◌, length, take};
ghost use Rattle.scope.specs.Run.{ValidRun};
ghost use Rattle.scope.specs.Refusal.{complaint};
ghost use Rattle.scope.specs.Reply.{reply};
ghost use Rattle.scope.specs.Inner.{verdict};
ghost use Rattle.fileblocks.specs.FileBlock.{file_block_bytes, file_block_of};
ghost use Rattle.saved.specs.File.{heading, later_file_blocks, file_blocks_for, file_length, bytes_for, run_of, bytes_in, heading_tests, later_file_blocks_tests, file_tests};
ghost use Rattle.saved.specs.Inner.{many_bytes};
ghost use Rattle.saved.specs.Promise.{says_reading, SavingPromise, ReadingPromise};

use fileblocks::{
    CONTENT_AT, CONTENT_BYTES, FILE_BLOCK_BYTES, four_at, judge_file_block, put_four,
    write_file_block, zeros_from,
};
use rooms::copy;
use scope::{Reason, Refusal, Run};

// Block 0 holds so many bytes: the version, three spare bytes and the run's four numbers.
const HEADING_BYTES: usize = 20;

// How many bytes the cells of a run within the limits are. A function of its own: it alone says that a cell is one byte.
fn bytes_for(run: Run) -> u64
    requires { ValidRun run }
    ensures { result ≡ bytes_for run }
{
    scope::cells(run)
}

// How long the file of so many bytes of cells is: block 0, and a file block for each 504 begun. That the bytes are few stays a clause:
// a struct of one number would be made and opened again at each step.
fn file_length(size: u64) -> u64
    requires { size < many_bytes }
    ensures { result ≡ file_length size }
{
    FILE_BLOCK_BYTES as u64 * (1 + size.div_ceil(CONTENT_BYTES as u64))
}

// Writes block 0: the version, three spare bytes and the run's four numbers, as the twenty bytes that it holds.
// A slice is written, for the reason at `write_file_block`.
fn write_heading(run: Run, block: &mut [u8])
    requires { length block.old ≡ file_block_bytes }
    ensures { block.new ≡ file_block_of 0 (heading run) }
{
    let mut bytes = [0u8; HEADING_BYTES];
    bytes[0] = 1;
    put_four(&mut bytes[4..8], run.window);
    put_four(&mut bytes[8..12], run.interval);
    put_four(&mut bytes[12..16], run.first);
    put_four(&mut bytes[16..HEADING_BYTES], run.last);
    write_file_block(0, &bytes, block);
}

// Writes the blocks after block 0: 504 cells each, the last perhaps with fewer. Each turn writes one whole block, cut out of the room by
// number, since of a room gone through by `chunks_mut` nothing is known once it is written; so too in `load`.
fn write_cells(map: &[u8], room: &mut [u8])
    requires { (length map.now < many_bytes) × (length room.old ≡ file_block_bytes * file_blocks_for (length map.now)) }
    ensures { room.new ≡ later_file_blocks map.now (file_blocks_for (length map.now)) }
{
    for (k, cells) in map.chunks(CONTENT_BYTES).enumerate() {
        let at = FILE_BLOCK_BYTES * k;
        write_file_block((k + 1) as u32, cells, &mut room[at..at + FILE_BLOCK_BYTES]);
    }
}

// Public operation. Saves a run's map in a file room of the exact length: done, or refused with the room as it was.
// Refused, in this order: 1, 17, 18, 3 for the run, 9 for a map or a room not of the exact length. Every test comes before the first
// byte is written, and then every byte is.
pub fn save(run: Run, map: &[u8], file: &mut [u8]) -> Result<(), Refusal>
    ensures { SavingPromise run map.now file.old result file.new }
{
    scope::judge_run(run)?;
    let cells = scope::cells(run);
    Reason::Room.when(map.len() as u64 != cells)?;
    let size = bytes_for(run);
    Reason::Room.when(file.len() as u64 != file_length(size))?;
    write_heading(run, &mut file[..FILE_BLOCK_BYTES]);
    write_cells(map, &mut file[FILE_BLOCK_BYTES..]);
    Ok(())
}

// What the table says of block 0: as of every block, then its version and its spare bytes.
fn judge_heading(block: &[u8; FILE_BLOCK_BYTES]) -> Result<(), Refusal>
    ensures { result ≡ verdict (complaint (heading_tests block.now)) }
{
    judge_file_block(0, HEADING_BYTES, block)?;
    Reason::Layout.when(block[4] != 1)?;
    Reason::Layout.when(!zeros_from(&block[5..8], 0))
}

// What the table says of the blocks after block 0, in order, if they are to hold `size` bytes of cells. They go by number, so that a last block
// that is not judged is an edit of how many there are.
fn judge_cells(size: usize, file: &[u8]) -> Result<(), Refusal>
    requires { (size < many_bytes) × (length file.now ≡ file_length size) }
    ensures { result ≡ verdict (complaint (later_file_blocks_tests size file.now (file_blocks_for size))) }
{
    let (later, _) = file[FILE_BLOCK_BYTES..].as_chunks::<FILE_BLOCK_BYTES>();
    for k in 0..size.div_ceil(CONTENT_BYTES) {
        judge_file_block((k + 1) as u32, size - CONTENT_BYTES * k, &later[k])?;
    }
    Ok(())
}

// The run that block 0 tells.
fn run_of(file: &[u8]) -> Run
    requires { 24 ≤ length file.now }
    ensures { result ≡ run_of file.now }
{
    Run::new(
        four_at(file, 8),
        four_at(file, 12),
        four_at(file, 16),
        four_at(file, 20),
    )
}

// What the table says of a file: its run, or the first test that it fails. Only a count of blocks that fits
// the run makes sure that each block is there to be judged.
fn judge_file(file: &[u8]) -> Result<Run, Refusal>
    ensures { says_reading result ≡ reply (complaint (file_tests file.now)) (run_of file.now) }
{
    Reason::FileBlocks.when(file.len() % FILE_BLOCK_BYTES != 0)?;
    let Some(heading) = file.first_chunk::<FILE_BLOCK_BYTES>() else {
        return Err(Reason::FileBlocks.alone());
    };
    judge_heading(heading)?;
    let run = run_of(file);
    scope::judge_run(run)?;
    let size = bytes_for(run);
    Reason::FileBlocks.when(file.len() as u64 != file_length(size))?;
    judge_cells(size as usize, file)?;
    Ok(run)
}

// Fills a map with the cells that the blocks after block 0 hold: 504 a block, of the last as many as are left.
fn load(file: &[u8], map: &mut [u8])
    requires { length file.now ≡ file_length (length map.old) }
    ensures { map.new ≡ take (length map.old) (bytes_in file.now (file_blocks_for (length map.old))) }
{
    let (later, _) = file[FILE_BLOCK_BYTES..].as_chunks::<FILE_BLOCK_BYTES>();
    for (k, block) in later.iter().enumerate() {
        let from = CONTENT_BYTES * k;
        let end = map.len().min(from + CONTENT_BYTES);
        copy(
            &block[CONTENT_AT..CONTENT_AT + (end - from)],
            &mut map[from..end],
        );
    }
}

// Public operation. Reads a file: its run, with a map of the exact length filled, or refused with the map as it was.
// Refused, in this order: 13 for whole blocks, 14 and 15 for block 0, 1, 17, 18, 3 for its run, 13 for the count, 14 and 15 for each
// other block, 9 for the map's length. Every test, of the last block too, comes before the first cell is filled.
pub fn read(file: &[u8], map: &mut [u8]) -> Result<Run, Refusal>
    ensures { ReadingPromise file.now map.old result map.new }
{
    let saved = judge_file(file)?;
    Reason::Room.when(map.len() as u64 != scope::cells(saved))?;
    load(file, map);
    Ok(saved)
}
