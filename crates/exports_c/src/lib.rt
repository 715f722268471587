// The door for programs in other languages: each function of crate exports under its own name, called as a C function is, with the
// same promise. Each stands twice, since a crate is a library or an archive and not both. A slice goes in as a pointer and a length. What
// the answers say stands at their structs, in that crate.
#![tactic(auto)]

ghost use Rattle.scope.specs.Run.{run_with};
ghost use Rattle.vectors.specs.Promise.{VectorsPromise};
ghost use Rattle.hits.specs.Promise.{FirstHitPromise, ListingPromise};
ghost use Rattle.map.specs.Promise.{MakingPromise, AddingPromise};
ghost use Rattle.blanking.specs.Promise.{BlankingPromise};
ghost use Rattle.saved.specs.Promise.{SavingPromise, ReadingPromise};
ghost use Rattle.text.specs.Promise.{TextPromise};
ghost use Rattle.exports.specs.Promise.{Exported};
ghost use Rattle.exports.specs.Replies.{tell_steps, tell_first, tell_listing, tell_mapped, tell_blanking, tell_saved, tell_loaded, tell_text};

use exports::{
    BlankingReply, FirstHitReply, ListingReply, MappedReply, RunReply, StepsReply, TextReply,
};

// `exports::zenithgong_step_vectors`, for C.
#[unsafe(no_mangle)]
pub extern "C" fn zenithgong_step_vectors(period: u32, remainder: u32, window: u32) -> StepsReply
    ensures { Exported (VectorsPromise period remainder window) tell_steps result }
{
    exports::zenithgong_step_vectors(period, remainder, window)
}

// `exports::zenithgong_first_hit`, for C.
#[unsafe(no_mangle)]
pub extern "C" fn zenithgong_first_hit(
    window: u32,
    interval: u32,
    first: u32,
    last: u32,
    period: u32,
    phase: u32,
    start: u64,
) -> FirstHitReply
    ensures { Exported (FirstHitPromise (run_with window interval first last) (record { period = period; phase = phase }) (record { 0 = start })) tell_first result }
{
    exports::zenithgong_first_hit(window, interval, first, last, period, phase, start)
}

// `exports::zenithgong_list_hits`, for C.
#[unsafe(no_mangle)]
pub extern "C" fn zenithgong_list_hits(
    window: u32,
    interval: u32,
    first: u32,
    last: u32,
    period: u32,
    phase: u32,
    start: u64,
    room: &mut [u64],
) -> ListingReply
    ensures { Exported (λ reply. ListingPromise (run_with window interval first last) (record { period = period; phase = phase }) (record { 0 = start }) room.old reply room.new) tell_listing result }
{
    exports::zenithgong_list_hits(window, interval, first, last, period, phase, start, room)
}

// `exports::zenithgong_make_map`, for C.
#[unsafe(no_mangle)]
pub extern "C" fn zenithgong_make_map(
    window: u32,
    interval: u32,
    first: u32,
    last: u32,
    periods: &[u32],
    weights: &[u32],
    phases: &[u32],
    map: &mut [u8],
) -> MappedReply
    ensures { Exported (λ reply. MakingPromise (run_with window interval first last) periods.now weights.now phases.now map.old reply map.new) tell_mapped result }
{
    exports::zenithgong_make_map(window, interval, first, last, periods, weights, phases, map)
}

// `exports::zenithgong_add_to_map`, for C.
#[unsafe(no_mangle)]
pub extern "C" fn zenithgong_add_to_map(
    window: u32,
    interval: u32,
    first: u32,
    last: u32,
    periods: &[u32],
    weights: &[u32],
    phases: &[u32],
    map: &mut [u8],
) -> MappedReply
    ensures { Exported (λ reply. AddingPromise (run_with window interval first last) periods.now weights.now phases.now map.old reply map.new) tell_mapped result }
{
    exports::zenithgong_add_to_map(window, interval, first, last, periods, weights, phases, map)
}

// `exports::zenithgong_list_stretches`, for C.
#[unsafe(no_mangle)]
pub extern "C" fn zenithgong_list_stretches(
    window: u32,
    interval: u32,
    first: u32,
    last: u32,
    map: &[u8],
    threshold: u8,
    lowest: i64,
    highest: i64,
    room: &mut [u32],
) -> BlankingReply
    ensures { Exported (λ reply. BlankingPromise (run_with window interval first last) map.now threshold (record { lowest = lowest; highest = highest }) room.old reply room.new) tell_blanking result }
{
    exports::zenithgong_list_stretches(
        window, interval, first, last, map, threshold, lowest, highest, room,
    )
}

// `exports::zenithgong_save`, for C.
#[unsafe(no_mangle)]
pub extern "C" fn zenithgong_save(
    window: u32,
    interval: u32,
    first: u32,
    last: u32,
    map: &[u8],
    file: &mut [u8],
) -> u8
    ensures { Exported (λ reply. SavingPromise (run_with window interval first last) map.now file.old reply file.new) tell_saved result }
{
    exports::zenithgong_save(window, interval, first, last, map, file)
}

// `exports::zenithgong_read`, for C.
#[unsafe(no_mangle)]
pub extern "C" fn zenithgong_read(file: &[u8], map: &mut [u8]) -> RunReply
    ensures { Exported (λ reply. ReadingPromise file.now map.old reply map.new) tell_loaded result }
{
    exports::zenithgong_read(file, map)
}

// `exports::zenithgong_read_text`, for C.
#[unsafe(no_mangle)]
pub extern "C" fn zenithgong_read_text(text: &[u8]) -> TextReply
    ensures { Exported (TextPromise text.now) tell_text result }
{
    exports::zenithgong_read_text(text)
}
