// What 02 says of the blanking list (E3), worked out for each cell by itself: the lines that have a guard cell at or above the threshold,
// the maximal stretches of them, and the call's refusals. Of the library only the type of a run is used here, and no code.
use scope::Run;
use trying::numbers::{at, low32, put};
use trying::reference;
use trying::reference::{Judged, when};

// What is asked of a map: the lines of its run by a threshold, and by a guard part of the window with these offsets, both in it.
// The offsets are two numbers and no `Guard`, since of the library only the type of a run is used here.
#[derive(Clone, Copy)]
pub struct Asked {
    pub run: Run,
    pub threshold: u8,
    pub lowest: i64,
    pub highest: i64,
}

// The offset of a line's cell at a distance from the first, whose offset is -I/2.
pub fn offset(distance: u32, window: u32) -> i64 {
    i64::from(distance) - i64::from(window / 2)
}

// Whether an offset is one of the window: -I/2 ≤ i < I/2.
fn in_window(i: i64, window: u32) -> bool {
    offset(0, window) <= i && i < offset(window, window)
}

impl Asked {
    // 20: a guard outside the window, with its lowest or its highest offset, or upside down.
    pub fn judge_guard(self) -> Judged {
        let window = self.run.window;
        let inside = in_window(self.lowest, window) && in_window(self.highest, window);
        when(!inside || self.highest < self.lowest, 20)
    }

    // The refusals of the blanking call for a map of so many cells, in 02's order, but for the room.
    pub fn judge(self, cells: usize) -> Judged {
        reference::judge_run(self.run)?;
        when(self.threshold == 0, 19)?;
        self.judge_guard()?;
        when(reference::cells(self.run) != cells, 9)
    }

    // Whether the cell at a distance from the first of its line is a guard cell, and its value at or above the threshold.
    fn blanks(self, distance: u32, value: u8) -> bool {
        let i = offset(distance, self.run.window);
        self.lowest <= i && i <= self.highest && self.threshold <= value
    }

    // Whether a line of such cells is blanked.
    fn blanks_line(self, line: &[u8]) -> bool {
        line.iter()
            .zip(0u32..)
            .any(|(value, distance)| self.blanks(distance, *value))
    }

    // Marks the lines that are blanked: a walk over all cells. The marks are those of the run's lines from the first on; a run with a
    // window of 0 has none.
    pub fn mark_lines(self, map: &[u8], marks: &mut [bool]) {
        let lines = map.chunks(self.run.window.max(1) as usize);
        for (mark, line) in marks.iter_mut().zip(lines) {
            *mark = self.blanks_line(line);
        }
    }
}

// 21: a room of so many numbers holds fewer stretches than there are, at two numbers each.
pub fn judge_room(size: usize, count: usize) -> Judged {
    when(size / 2 < count, 21)
}

// Whether a stretch begins with the line at a place: that is marked, and the one before is not. Before the first there is none.
fn begins(marks: &[bool], k: usize) -> bool {
    at(marks, k) && !at(marks, k.wrapping_sub(1))
}

// Whether a stretch ends with the line at a place: that is marked, and the one after is not. After the last there is none.
fn ends(marks: &[bool], k: usize) -> bool {
    at(marks, k) && !at(marks, k.wrapping_add(1))
}

// How many stretches there are of the marked lines.
pub fn count(marks: &[bool]) -> usize {
    (0..marks.len()).filter(|k| ends(marks, *k)).count()
}

// Makes a room what it is to be after the stretches of the marked lines are written, as far as it goes. By place: the marks before and
// after are looked at too.
pub fn expect_stretches(first: u32, marks: &[bool], room: &mut [u32]) {
    let mut next: usize = 0;
    for k in 0..marks.len() {
        let line = first.wrapping_add(low32(k as u64));
        if begins(marks, k) {
            put(room, next, line);
        }
        if ends(marks, k) {
            put(room, next.wrapping_add(1), line);
            next = next.wrapping_add(2);
        }
    }
}
