// The hits of a source in a run: the first from a cell on, and their listing in a lent room.
// Every function is proved. `first_hit` and `list_hits` are the public operations, and they ask nothing of their caller.
#![tactic(auto)]

ghost use Rattle.std.specs.Prelude.{◌≡◌, ◌<◌};
ghost use Rattle.scope.specs.Run.{cells_of};
ghost use Rattle.scope.specs.Refusal.{complaint};
ghost use Rattle.scope.specs.Inner.{verdict};
ghost use Rattle.hits.specs.Promise.{first_hit_tests, FirstHitPromise, ListingPromise};
ghost use Rattle.hits.specs.Inner.{ListsFrom};

use scope::{Reason, Refusal, Run, RunCell, Source};
use search::Asked;

// How a listing ended: so many hits were written, and the next one is this, if one is left.
#[derive(Clone, Copy)]
pub struct Listing {
    pub count: usize,
    pub next: Option<RunCell>,
}

// What the tests come to that both calls begin with: the run, the source, the start.
fn judge(run: Run, source: Source, start: RunCell) -> Result<(), Refusal>
    ensures { result ≡ verdict (complaint (first_hit_tests run source start)) }
{
    scope::judge_run(run)?;
    scope::judge_source(source)?;
    Reason::Start.when(scope::cells(run) <= start.0)
}

// Public operation. The smallest hit cell of a run that is not below the start, if there is one. A point of the source is carried
// down the division sequence of 002 into the window, so that the cost is O(log p) however far the hit is.
// Refused, in this order: 1, 17, 18, 3 for the run, 4, 22 for the source, 8 for the start.
pub fn first_hit(run: Run, source: Source, start: RunCell) -> Result<Option<RunCell>, Refusal>
    ensures { FirstHitPromise run source start result }
{
    judge(run, source, start)?;
    Ok(Asked { run, source }.find_hit(start))
}

// The hits from `start` on, written until there are no more or the room is full: line by line, and on a line at offsets that
// lie a period apart. `at` is the first hit of the line and `to` that of the next line that has one, worked out before the
// line is written, so that the processor has it by then. `cell` and `offset` are those of the hit that is next; within the
// line its offset is counted from the window's right edge, `past`, so that the test is one of the sign. Two loops, the outer one left
// by its label, are the form that document 01 names for this place.
fn write_hits(asked: Asked, start: RunCell, room: &mut [u64]) -> Listing
    requires { start.0 < cells_of asked.run }
    ensures { ListsFrom asked.run asked.source start.0 room.old result room.new }
{
    let Some(first) = asked.find_hit(start) else {
        return Listing {
            count: 0,
            next: None,
        };
    };
    let all = scope::cells(asked.run);
    let window = asked.run.window;
    let period = asked.source.period;
    let end = walk::offset_at(window as u64, window);
    let walk = walk::plan(asked);
    let mut cell = first.0;
    let mut offset = walk::offset_at(cell % window as u64, window);
    let mut at = walk::line_hit_of(asked, first);
    let mut next = None;
    let mut count = 0;
    'lines: while cell < all {
        let to = walk.next(at);
        let mut past = offset - end;
        while past < 0 {
            if count == room.len() {
                next = Some(RunCell(cell));
                break 'lines;
            }
            room[count] = cell;
            count += 1;
            past += period as i64;
            cell += period as u64;
        }
        at = to;
        cell = to.cell.0;
        offset = to.offset;
    }
    Listing { count, next }
}

// Public operation. The hit cells of a run that are not below the start, written into the room in rising order; what comes
// back is their count and, if one is left that did not fit, the next. Nothing is stored before the last test is passed.
// Refused, in this order: 1, 17, 18, 3 for the run, 4, 22 for the source, 8 for the start, 9 for an empty room.
pub fn list_hits(
    run: Run,
    source: Source,
    start: RunCell,
    room: &mut [u64],
) -> Result<Listing, Refusal>
    ensures { ListingPromise run source start room.old result room.new }
{
    judge(run, source, start)?;
    Reason::Room.when(room.is_empty())?;
    // Named, so that a wrong program is an edit of the reply alone (`first_roomful`, `stores_before_refusing`).
    let listing = write_hits(Asked { run, source }, start, room);
    Ok(listing)
}
