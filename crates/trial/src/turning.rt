// A block's cells as the run's, by the library's own shift: the block is a run too, and a block of itself, whose cells are not moved.
use scope::{Run, RunCell};

// The run's cell for one that a call with a block as its run has named, the block being the run's lines from one on; nothing, if
// there is no such cell.
pub fn in_run(run: Run, first: u32, cell: RunCell) -> Option<RunCell> {
    let block = Run { first, ..run };
    let (Ok(()), Ok(())) = (scope::judge_run(run), scope::judge_run(block)) else {
        return None;
    };
    if first < run.first {
        return None;
    }
    let all = scope::cells(block);
    if all < cell.0 {
        return None;
    }
    Some(cell.in_block(block, block).in_run(run, block))
}
