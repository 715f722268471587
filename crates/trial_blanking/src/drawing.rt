// Random maps, thresholds, guards and rooms. They are drawn so that each kind comes often: maps with many cells above 0 and with few, and
// those that the plain map call makes; thresholds that a cell just reaches; guards that take in an end of the window, all of it, or one
// offset; rooms that are just filled, and a number or a stretch short. Here and there is a fault, and two at once.
use crate::stretches::{Asked, offset};
use blanking::Guard;
use scope::Run;
use trying::draw::{Case, Drawn};
use trying::random::State;
use trying::reference::Lists;
use trying::{draw, numbers};

// Fills a map with random values, one time in so many; else with 0.
fn draw_values(map: &mut [u8], times: u32, state: State) {
    let mut state = state;
    for value in map {
        state = state.next();
        *value = if state.seldom(times) {
            state.past(40).byte()
        } else {
            0
        };
    }
}

// Makes the map of up to three sources of a case, with no fault but by a rare chance. A map that is not of its run's length stays as it is.
fn map_of_sources(case: Case, map: &mut [u8]) {
    let drawn: Drawn<3> = draw::draw_sources(case, case.state, u32::MAX);
    let Lists {
        periods,
        weights,
        phases,
    } = drawn.first(case.state.up_to(3) as usize);
    let _ = map::make_map(case.run, periods, weights, phases, map);
}

// Draws the map of a case: of random values, of few, of very few, or of sources. Where the plain map call refuses, the map stays.
pub fn draw_map(case: Case, map: &mut [u8]) {
    let state = case.state;
    match state.past(5).0 % 4 {
        0 => draw_values(map, 1, state),
        1 => draw_values(map, 4, state),
        2 => draw_values(map, 12, state),
        _ => map_of_sources(case, map),
    }
}

// A threshold: the value of a cell or one more, the least or the largest there is, 0, or any.
fn threshold(map: &[u8], state: State) -> u8 {
    let cell = state.past(24).0.checked_rem(map.len() as u64).unwrap_or(0);
    let reached = numbers::at(map, cell as usize);
    match state.0 % 16 {
        0 => 0,
        1..=3 => 1,
        4 => 255,
        5 | 6 => reached.wrapping_add(1),
        7..=9 => reached.max(1),
        _ => (state.up_to(255) & 255) as u8,
    }
}

// The guard from one distance from the window's left edge to another.
fn guard_between(window: u32, from: u32, to: u32) -> Guard {
    Guard {
        lowest: offset(from, window),
        highest: offset(to, window),
    }
}

// A guard that is outside the window with one of its ends, by 1 or as far as may be, or with both.
fn outside(window: u32, distance: u32, state: State) -> Guard {
    let within = offset(distance, window);
    let left = offset(0, window.wrapping_add(2));
    let right = offset(window, window);
    let (lowest, highest) = match state.0 % 8 {
        0 => (left, within),
        1 => (left, right),
        2 => (i64::MIN, within),
        3 => (i64::MIN, i64::MAX),
        4 => (right, right),
        7 => (within, i64::MAX),
        _ => (within, right),
    };
    Guard { lowest, highest }
}

// A guard: all of the window, one offset, an end of the window, any part; or outside the window, or upside down.
fn guard(window: u32, state: State) -> Guard {
    let a = state.below(window);
    let b = state.next().below(window);
    let from = a.min(b);
    let to = a.max(b);
    let last = window.wrapping_sub(1);
    match state.0 % 16 {
        0..=2 => guard_between(window, 0, last),
        3 | 4 => guard_between(window, a, a),
        5 => guard_between(window, 0, 0),
        6 => guard_between(window, last, last),
        7 | 8 => guard_between(window, 0, to),
        9 | 10 => guard_between(window, from, last),
        11 => outside(window, a, state.past(4)),
        12 => guard_between(window, from.wrapping_add(1), from),
        _ => guard_between(window, from, to),
    }
}

// A run; or, one time in four, with a fault here and there.
fn spoilt(run: Run, state: State) -> Run {
    if state.seldom(4) {
        draw::spoilt_run(run, state)
    } else {
        run
    }
}

// What is asked of a map of a case, with a fault here and there.
pub fn draw_asked(case: Case, map: &[u8]) -> Asked {
    let a = case.state.next();
    let b = a.next();
    let run = spoilt(case.run, a);
    let Guard { lowest, highest } = guard(run.window, b);
    Asked {
        run,
        threshold: threshold(map, b.next()),
        lowest,
        highest,
    }
}

// How many numbers a room for so many stretches has, up to 24: just as many, a number or a stretch short, one or some more, or any.
pub fn room_size(count: usize, state: State) -> usize {
    let right = 2 * (count % 12);
    let size = match state.past(30).0 % 8 {
        0 | 1 => right,
        2 => right.wrapping_sub(1),
        3 => right.wrapping_sub(2),
        4 => right + 1,
        5 => right + 5,
        6 => 0,
        _ => state.below(25) as usize,
    };
    size % 25
}
