// The door for programs in other languages: one function for each public operation but the report. Crate exports_c has each once more,
// under the same name and with the same promise, as what C calls. Every function is proved and asks nothing of its caller.
// An answer's refusal is 0, or the refusal's number; then all else in it is 0 but the place of the source that it concerns, if any,
// and nothing lent was changed. Where no refusal concerns a source of a list, the answer has no place.
// Numbers for kinds and refusals, 0 where there is none, and arrays with a count are the C interface.
#![tactic(auto)]

ghost use Rattle.std.specs.Prelude.{◌≡◌};
ghost use Rattle.scope.specs.Run.{run_with};
ghost use Rattle.vectors.specs.Promise.{VectorsPromise};
ghost use Rattle.hits.specs.Promise.{FirstHitPromise, ListingPromise};
ghost use Rattle.map.specs.Promise.{MakingPromise, AddingPromise};
ghost use Rattle.blanking.specs.Promise.{BlankingPromise};
ghost use Rattle.saved.specs.Promise.{SavingPromise, ReadingPromise};
ghost use Rattle.text.specs.Promise.{TextPromise};
ghost use Rattle.exports.specs.Promise.{Exported};
ghost use Rattle.exports.specs.Replies.{tell_place, tell_steps, tell_first, tell_listing, tell_mapped, tell_blanking, tell_saved, tell_loaded, tell_text};

use blanking::Guard;
use hits::Listing;
use scope::{Place, Refusal, Run, RunCell, Source};
use text::Input;
use vectors::Steps;

// The step vectors.
#[repr(C)]
#[derive(Clone, Copy)]
pub struct StepsReply {
    pub refusal: u8,
    // 2 for a pair, 1 for a single vector.
    pub vectors: u8,
    // (α, β), or the single vector.
    pub alpha: i64,
    pub beta: u64,
    // (γ, δ), where there is a pair.
    pub gamma: i64,
    pub delta: u64,
}

// The first hit.
#[repr(C)]
#[derive(Clone, Copy)]
pub struct FirstHitReply {
    pub refusal: u8,
    // 1 where there is a hit, else 0.
    pub found: u8,
    pub cell: u64,
}

// How a listing ended.
#[repr(C)]
#[derive(Clone, Copy)]
pub struct ListingReply {
    pub refusal: u8,
    // 1 where a hit is left, else 0.
    pub more: u8,
    // How many hits were written.
    pub count: usize,
    // The hit that is left.
    pub next: u64,
}

// What a map call came to.
#[repr(C)]
#[derive(Clone, Copy)]
pub struct MappedReply {
    pub refusal: u8,
    // The place of the source at fault, counted from 1; 0 where the refusal concerns none.
    pub place: u64,
}

// What the blanking call came to.
#[repr(C)]
#[derive(Clone, Copy)]
pub struct BlankingReply {
    pub refusal: u8,
    // How many stretches were written, two numbers each.
    pub count: usize,
}

// A run that was read from a file or a text.
#[repr(C)]
#[derive(Clone, Copy)]
pub struct RunReply {
    pub refusal: u8,
    pub window: u32,
    pub interval: u32,
    pub first: u32,
    pub last: u32,
}

// The run and the sources of a text.
#[repr(C)]
#[derive(Clone, Copy)]
pub struct TextReply {
    pub run: RunReply,
    // The place of the source at fault, counted from 1; 0 where the refusal concerns none.
    pub place: u64,
    // How many sources there are; their periods, weights and phases stand first, zeros after them.
    pub count: usize,
    pub periods: [u32; 64],
    pub weights: [u32; 64],
    pub phases: [u32; 64],
}

// A place in a number: 0 where there is none. No From: neither type is of this crate.
fn tell_place(place: Place) -> u64
    ensures { result ≡ tell_place place }
{
    match place {
        Place::Nowhere => 0,
        Place::AtSource(k) => k,
    }
}

// The step vectors in numbers.
impl From<Steps> for StepsReply {
    ghost from_gives = { λ reply told. told ≡ tell_steps reply };

    fn from(reply: Steps) -> StepsReply {
        match reply {
            Steps::Pair(left, right) => StepsReply {
                refusal: 0,
                vectors: 2,
                alpha: left.offset,
                beta: left.line,
                gamma: right.offset,
                delta: right.line,
            },
            Steps::Single(only) => StepsReply {
                refusal: 0,
                vectors: 1,
                alpha: only.offset,
                beta: only.line,
                gamma: 0,
                delta: 0,
            },
            Steps::Refused(reason, _) => StepsReply {
                refusal: u8::from(reason),
                vectors: 0,
                alpha: 0,
                beta: 0,
                gamma: 0,
                delta: 0,
            },
        }
    }
}

// The first hit in numbers.
impl From<Result<Option<RunCell>, Refusal>> for FirstHitReply {
    ghost from_gives = { λ reply told. told ≡ tell_first reply };

    fn from(reply: Result<Option<RunCell>, Refusal>) -> FirstHitReply {
        match reply {
            Ok(Some(hit)) => FirstHitReply {
                refusal: 0,
                found: 1,
                cell: hit.0,
            },
            Ok(None) => FirstHitReply {
                refusal: 0,
                found: 0,
                cell: 0,
            },
            Err(refusal) => FirstHitReply {
                refusal: u8::from(refusal.reason),
                found: 0,
                cell: 0,
            },
        }
    }
}

// The end of a listing in numbers.
impl From<Result<Listing, Refusal>> for ListingReply {
    ghost from_gives = { λ reply told. told ≡ tell_listing reply };

    fn from(reply: Result<Listing, Refusal>) -> ListingReply {
        match reply {
            Ok(Listing { count, next: None }) => ListingReply {
                refusal: 0,
                more: 0,
                count,
                next: 0,
            },
            Ok(
                Listing {
                    count,
                    next: Some(hit),
                },
            ) => ListingReply {
                refusal: 0,
                more: 1,
                count,
                next: hit.0,
            },
            Err(refusal) => ListingReply {
                refusal: u8::from(refusal.reason),
                more: 0,
                count: 0,
                next: 0,
            },
        }
    }
}

// What a map call came to, in numbers.
impl From<Result<(), Refusal>> for MappedReply {
    ghost from_gives = { λ reply told. told ≡ tell_mapped reply };

    fn from(reply: Result<(), Refusal>) -> MappedReply {
        match reply {
            Ok(()) => MappedReply {
                refusal: 0,
                place: 0,
            },
            Err(refusal) => MappedReply {
                refusal: u8::from(refusal.reason),
                place: tell_place(refusal.place),
            },
        }
    }
}

// What the blanking call came to, in numbers.
impl From<Result<usize, Refusal>> for BlankingReply {
    ghost from_gives = { λ reply told. told ≡ tell_blanking reply };

    fn from(reply: Result<usize, Refusal>) -> BlankingReply {
        match reply {
            Ok(count) => BlankingReply { refusal: 0, count },
            Err(refusal) => BlankingReply {
                refusal: u8::from(refusal.reason),
                count: 0,
            },
        }
    }
}

// What saving came to, as a number. No From: neither type is of this crate.
fn tell_saved(reply: Result<(), Refusal>) -> u8
    ensures { result ≡ tell_saved reply }
{
    match reply {
        Ok(()) => 0,
        Err(refusal) => u8::from(refusal.reason),
    }
}

// The run of a file in numbers.
impl From<Result<Run, Refusal>> for RunReply {
    ghost from_gives = { λ reply told. told ≡ tell_loaded reply };

    fn from(reply: Result<Run, Refusal>) -> RunReply {
        match reply {
            Ok(run) => RunReply {
                refusal: 0,
                window: run.window,
                interval: run.interval,
                first: run.first,
                last: run.last,
            },
            Err(refusal) => RunReply {
                refusal: u8::from(refusal.reason),
                window: 0,
                interval: 0,
                first: 0,
                last: 0,
            },
        }
    }
}

// The run and the sources of a text in numbers.
impl From<Result<Input, Refusal>> for TextReply {
    ghost from_gives = { λ reply told. told ≡ tell_text reply };

    #[tactic(auto, unfolding(rooms::specs::Lists::zeros))]
    fn from(reply: Result<Input, Refusal>) -> TextReply {
        match reply {
            Ok(input) => {
                let periods = input.periods;
                let weights = input.weights;
                let phases = input.phases;
                TextReply {
                    run: RunReply::from(Ok(input.run)),
                    place: 0,
                    count: input.count,
                    periods,
                    weights,
                    phases,
                }
            }
            Err(refusal) => TextReply {
                run: RunReply::from(Err(refusal)),
                place: tell_place(refusal.place),
                count: 0,
                periods: [0; 64],
                weights: [0; 64],
                phases: [0; 64],
            },
        }
    }
}

// Public operation: `vectors::step_vectors`, its reply in numbers.
pub fn zenithgong_step_vectors(period: u32, remainder: u32, window: u32) -> StepsReply
    ensures { Exported (VectorsPromise period remainder window) tell_steps result }
{
    StepsReply::from(vectors::step_vectors(period, remainder, window))
}

// Public operation: `hits::first_hit` of the run with these four numbers, its reply in numbers.
pub fn zenithgong_first_hit(
    window: u32,
    interval: u32,
    first: u32,
    last: u32,
    period: u32,
    phase: u32,
    start: u64,
) -> FirstHitReply
    ensures { Exported (FirstHitPromise (run_with window interval first last) (record { period = period; phase = phase }) (record { 0 = start })) tell_first result }
{
    let run = Run::new(window, interval, first, last);
    FirstHitReply::from(hits::first_hit(run, Source { period, phase }, RunCell(start)))
}

// Public operation: `hits::list_hits` of the run with these four numbers, its reply in numbers.
pub fn zenithgong_list_hits(
    window: u32,
    interval: u32,
    first: u32,
    last: u32,
    period: u32,
    phase: u32,
    start: u64,
    room: &mut [u64],
) -> ListingReply
    ensures { Exported (λ reply. ListingPromise (run_with window interval first last) (record { period = period; phase = phase }) (record { 0 = start }) room.old reply room.new) tell_listing result }
{
    let run = Run::new(window, interval, first, last);
    ListingReply::from(hits::list_hits(run, Source { period, phase }, RunCell(start), room))
}

// Public operation: `map::make_map` for the run with these four numbers, its reply in numbers. The map starts clean.
pub fn zenithgong_make_map(
    window: u32,
    interval: u32,
    first: u32,
    last: u32,
    periods: &[u32],
    weights: &[u32],
    phases: &[u32],
    map: &mut [u8],
) -> MappedReply
    ensures { Exported (λ reply. MakingPromise (run_with window interval first last) periods.now weights.now phases.now map.old reply map.new) tell_mapped result }
{
    let run = Run::new(window, interval, first, last);
    MappedReply::from(map::make_map(run, periods, weights, phases, map))
}

// Public operation: `map::add_to_map` for the run with these four numbers, its reply in numbers. The map is added to as it was lent.
pub fn zenithgong_add_to_map(
    window: u32,
    interval: u32,
    first: u32,
    last: u32,
    periods: &[u32],
    weights: &[u32],
    phases: &[u32],
    map: &mut [u8],
) -> MappedReply
    ensures { Exported (λ reply. AddingPromise (run_with window interval first last) periods.now weights.now phases.now map.old reply map.new) tell_mapped result }
{
    let run = Run::new(window, interval, first, last);
    MappedReply::from(map::add_to_map(run, periods, weights, phases, map))
}

// Public operation: `blanking::list_stretches` for the run with these four numbers and the guard with these two offsets, its reply in
// numbers.
pub fn zenithgong_list_stretches(
    window: u32,
    interval: u32,
    first: u32,
    last: u32,
    map: &[u8],
    threshold: u8,
    lowest: i64,
    highest: i64,
    room: &mut [u32],
) -> BlankingReply
    ensures { Exported (λ reply. BlankingPromise (run_with window interval first last) map.now threshold (record { lowest = lowest; highest = highest }) room.old reply room.new) tell_blanking result }
{
    let run = Run::new(window, interval, first, last);
    BlankingReply::from(blanking::list_stretches(
        run,
        map,
        threshold,
        Guard { lowest, highest },
        room,
    ))
}

// Public operation: `saved::save` for the run with these four numbers. 0 when done, else the refusal's number.
pub fn zenithgong_save(
    window: u32,
    interval: u32,
    first: u32,
    last: u32,
    map: &[u8],
    file: &mut [u8],
) -> u8
    ensures { Exported (λ reply. SavingPromise (run_with window interval first last) map.now file.old reply file.new) tell_saved result }
{
    let run = Run::new(window, interval, first, last);
    tell_saved(saved::save(run, map, file))
}

// Public operation: `saved::read`, its reply in numbers.
pub fn zenithgong_read(file: &[u8], map: &mut [u8]) -> RunReply
    ensures { Exported (λ reply. ReadingPromise file.now map.old reply map.new) tell_loaded result }
{
    RunReply::from(saved::read(file, map))
}

// Public operation: `text::read_text`, its reply in numbers.
pub fn zenithgong_read_text(text: &[u8]) -> TextReply
    ensures { Exported (TextPromise text.now) tell_text result }
{
    TextReply::from(text::read_text(text))
}
