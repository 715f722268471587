// Random small runs and sources. They are drawn so that each kind of source comes often: a period below the window, equal to
// it and above it, a remainder of 0, a large common factor of the period and the interval, no phase and the largest; and runs from line 0.
// Then a number here and there is made one at which the table of refusals changes, so that faults come, and two at once: of both lines,
// and of sources in one list too.
use crate::numbers;
use crate::random::State;
use crate::reference::Lists;
use scope::{Run, Source};

// A period up to the window, the window itself, one to six times a factor, or up to 200.
fn period(state: State, window: u32, factor: u32) -> u32 {
    let later = state.next();
    match state.0 % 4 {
        0 => later.up_to(window),
        1 => window,
        2 => later.up_to(6).wrapping_mul(factor),
        _ => later.up_to(200),
    }
}

// A phase for a period: 0, the largest below it, or any.
fn phase(state: State, period: u32) -> u32 {
    match state.0 % 4 {
        0 => 0,
        1 => period.wrapping_sub(1),
        _ => state.below(period),
    }
}

// An interval for a period: up to 50, a multiple of the period, a multiple of a factor, or near the largest.
fn interval(state: State, period: u32, factor: u32) -> u32 {
    let later = state.next();
    match state.0 % 4 {
        0 => later.up_to(50),
        1 => later.up_to(5).wrapping_mul(period),
        2 => later.up_to(30).wrapping_mul(factor),
        _ => u32::MAX.wrapping_sub(later.below(100)),
    }
}

// A window up to 16, so that lines are many beside it, or up to 82, so that the cells take more than one block of a file.
fn window(state: State) -> u32 {
    let half = match state.0 % 8 {
        0 => state.up_to(41),
        _ => state.up_to(8),
    };
    half.wrapping_mul(2)
}

// A first line: 0 one time in three, else up to 60.
fn first_line(state: State) -> u32 {
    match state.0 % 3 {
        0 => 0,
        _ => state.below(61),
    }
}

// A run of at most 12 lines, a source that its interval goes with, and the state that the calls with them go by.
#[derive(Clone, Copy)]
pub struct Case {
    pub run: Run,
    pub source: Source,
    pub state: State,
}

// A random case. All of it goes by the state alone.
pub fn draw_case(state: State) -> Case {
    let a = state.next();
    let b = a.next();
    let window = window(a.past(9));
    let factor = b.up_to(24);
    let period = period(b.past(9), window, factor);
    let phase = phase(b.next(), period);
    let first = first_line(a);
    Case {
        run: Run {
            window,
            interval: interval(a.past(21), period, factor),
            first,
            last: first.wrapping_add(b.below(12)),
        },
        source: Source { period, phase },
        state: a,
    }
}

// Numbers at which a test of the table of refusals changes, those that are to come often more than once.
const EDGES: [u32; 16] = [
    0, 0, 0, 1, 3, 255, 256, 4096, 4098, 16777216, 16777217, 2147483647, 2147483648, 4294967295,
    4294967295, 4294967295,
];

// The same of the lines.
const LINE_EDGES: [u32; 8] = [
    0, 1, 16777216, 16777217, 16777218, 16777218, 16777219, 4294967295,
];

// One of a table's numbers; 0 if it has none.
fn one_of(list: &[u32], state: State) -> u32 {
    let place = state.0.checked_rem(list.len() as u64).unwrap_or(0);
    numbers::at(list, place as usize)
}

// A number as it is; or, one time in so many, another.
pub fn maybe(number: u32, state: State, times: u32) -> u32 {
    if state.seldom(times) {
        one_of(&EDGES, state)
    } else {
        number
    }
}

// The phase of a source; or, one time in so many, its period, which is just too large, or a number at which another test changes.
fn spoilt_phase(source: Source, state: State, times: u32) -> u32 {
    if !state.seldom(times) {
        return source.phase;
    }
    match state.0 % 2 {
        0 => source.period,
        _ => one_of(&EDGES, state),
    }
}

// A source with a fault in its period or its phase one time in so many, or in both.
pub fn spoilt_source(source: Source, state: State, times: u32) -> Source {
    Source {
        period: maybe(source.period, state, times),
        phase: spoilt_phase(source, state.next(), times),
    }
}

// A run; or, one time in four, with such a first and such a last line, so that both of their limits are often broken at once.
pub fn spoilt_lines(run: Run, state: State) -> Run {
    if !state.seldom(4) {
        return run;
    }
    Run {
        first: one_of(&LINE_EDGES, state),
        last: one_of(&LINE_EDGES, state.past(3)),
        ..run
    }
}

// A run with a fault here and there.
pub fn spoilt_run(run: Run, state: State) -> Run {
    let b = state.next();
    let c = b.next();
    let d = c.next();
    let lines = spoilt_lines(run, d.next());
    Run {
        window: maybe(run.window, state, 16),
        interval: maybe(run.interval, b, 16),
        first: maybe(lines.first, c, 16),
        last: maybe(lines.last, d, 16),
    }
}

// How seldom a number of a source is another: as is told; or, one time in four, every third, so that two sources are often at fault.
pub fn how_seldom(told: u32, state: State) -> u32 {
    if state.seldom(4) { 3 } else { told }
}

// A length as it is to be; or, one time in sixteen, off by one or by a step.
pub fn length(right: usize, step: usize, state: State) -> usize {
    match state.0 % 64 {
        0 => right.wrapping_add(step),
        1 => right.wrapping_sub(step),
        2 => right.wrapping_add(1),
        3 => right.wrapping_sub(1),
        _ => right,
    }
}

// The source after another: every third has the period of the one before, with a phase of its own.
fn source_after(before: Source, window: u32, place: usize, state: State) -> Source {
    let period = if place % 3 == 2 {
        before.period
    } else {
        period(state.past(9), window, state.up_to(24))
    };
    Source {
        period,
        phase: phase(state.past(21), period),
    }
}

// The lists of sources that are drawn. They are three, since the library's calls are lent them so.
#[derive(Clone, Copy)]
pub struct Drawn<const N: usize> {
    periods: [u32; N],
    weights: [u32; N],
    phases: [u32; N],
}

impl<const N: usize> Drawn<N> {
    // The first of these sources, so many.
    pub fn first(&self, count: usize) -> Lists<'_> {
        self.cut(count, count, count)
    }

    // The first periods, weights and phases, so many of each.
    pub fn cut(&self, periods: usize, weights: usize, phases: usize) -> Lists<'_> {
        Lists {
            periods: numbers::first(&self.periods, periods),
            weights: numbers::first(&self.weights, weights),
            phases: numbers::first(&self.phases, phases),
        }
    }
}

// Draws sources, the first that of a case, with a fault one time in so many. By place: three lists are filled at once.
pub fn draw_sources<const N: usize>(case: Case, state: State, times: u32) -> Drawn<N> {
    let mut drawn = Drawn {
        periods: [0; N],
        weights: [0; N],
        phases: [0; N],
    };
    let mut last = case.source;
    let mut state = state;
    for k in 0..N {
        let source = spoilt_source(last, state, times);
        drawn.periods[k] = source.period;
        drawn.phases[k] = source.phase;
        state = state.next();
        drawn.weights[k] = maybe(state.up_to(255), state.past(7), times);
        last = source_after(last, case.run.window, k, state);
    }
    drawn
}
