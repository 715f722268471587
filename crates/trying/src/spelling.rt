// The text of a run and its sources, as 01 and 02 have it.
use crate::random::State;
use crate::reference::Lists;
use scope::{Run, Source};
use std::io;
use std::io::{Cursor, Write};

// A text that is written: room for the longest there is, and how far it has come.
pub type Text = Cursor<[u8; 20000]>;

// A text with nothing in it.
pub fn blank() -> Text {
    Cursor::new([0; 20000])
}

// What of a text is written.
pub fn written(text: &Text) -> &[u8] {
    let room = text.get_ref();
    room.get(..text.position() as usize).unwrap_or(room)
}

// Puts the numbers of a run after its word.
pub fn put_run(text: &mut Text, run: Run) -> io::Result<()> {
    let Run {
        window,
        interval,
        first,
        last,
    } = run;
    write!(text, "run {window} {interval} {first} {last}")
}

// Puts a `src` line, with its phase; or without, where that is 0 and is to be left out.
fn put_source(text: &mut Text, source: Source, weight: u32, left_out: bool) -> io::Result<()> {
    let Source { period, phase } = source;
    if phase == 0 && left_out {
        return writeln!(text, "src {period} {weight}");
    }
    writeln!(text, "src {period} {weight} {phase}")
}

// The text of a run and its sources. A phase of 0 is left out one time in two, as the state has it.
pub fn text_of(run: Run, sources: Lists<'_>, state: State) -> io::Result<Text> {
    let mut text = blank();
    let mut state = state;
    put_run(&mut text, run)?;
    writeln!(text, "")?;
    for k in 0..sources.count() {
        let left_out = state.past(20).0 % 2 == 0;
        put_source(&mut text, sources.source(k), sources.weight(k), left_out)?;
        state = state.next();
    }
    Ok(text)
}
