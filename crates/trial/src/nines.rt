// E6's examples: a map of nines, made and added to, with no sources, with a weight of 0, and made twice.
use crate::ledger;
use crate::mapping::MapCall;
use scope::Run;
use trying::reference::{Judged, Lists, at_place};

// 01's run.
pub const EXAMPLE: Run = Run {
    window: 4,
    interval: 10,
    first: 1,
    last: 5,
};

// Whether a map call with 01's run is refused so, or for no refusal is not, and makes of a map what is expected.
fn makes(
    call: MapCall,
    judged: Judged,
    sources: Lists<'_>,
    map: &mut [u8; 20],
    expected: [u8; 20],
) -> bool {
    call.makes(judged, EXAMPLE, sources, map, &expected)
}

// Whether the call with no sources is done and makes of a map of nines what is expected.
fn with_no_sources(call: MapCall, expected: [u8; 20]) -> bool {
    let none = Lists {
        periods: &[],
        weights: &[],
        phases: &[],
    };
    makes(call, Ok(()), none, &mut [9; 20], expected)
}

// Whether the call with a weight of 0 is refused 7, source 1, and leaves a map of nines.
fn with_no_weight(call: MapCall) -> bool {
    let weightless = Lists {
        periods: &[7],
        weights: &[0],
        phases: &[0],
    };
    makes(call, at_place(7, 1), weightless, &mut [9; 20], [9; 20])
}

// Whether a map of nines, made twice with 01's sources, is 01's map both times.
fn made_twice() -> bool {
    let sources = Lists {
        periods: &[7, 3],
        weights: &[60, 200],
        phases: &[0, 0],
    };
    let mut map = [9u8; 20];
    let expected = [
        200u8, 0, 0, 200, 0, 255, 0, 0, 0, 0, 200, 0, 255, 0, 0, 200, 0, 200, 0, 60,
    ];
    let once = makes(MapCall::Make, Ok(()), sources, &mut map, expected);
    let twice = makes(MapCall::Make, Ok(()), sources, &mut map, expected);
    once && twice
}

// Tries the examples.
pub fn try_nines(nines: &mut ledger::Nines) {
    nines
        .no_sources
        .count(with_no_sources(MapCall::Make, [0; 20]));
    nines
        .no_sources
        .count(with_no_sources(MapCall::Add, [9; 20]));
    nines.no_weight.count(with_no_weight(MapCall::Make));
    nines.no_weight.count(with_no_weight(MapCall::Add));
    nines.made_twice.count(made_twice());
}
