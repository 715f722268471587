// What 01 and 02 have printed of a run and its sources, from a walk over all cells.
use crate::reference;
use crate::reference::{Judged, Lists, Refusal};
use crate::spelling::{Text, blank, put_run};
use scope::{Run, Source};
use std::io;
use std::io::Write;

// Puts the lines of all sources: place, period, weight, phase, and how many cells each hits.
fn put_sources(text: &mut Text, run: Run, sources: Lists<'_>) -> io::Result<()> {
    for k in 0..sources.count() {
        let place = k as u64 + 1;
        let weight = sources.weight(k);
        let source = sources.source(k);
        let hits = reference::count_hits(run, source);
        let Source { period, phase } = source;
        writeln!(text, "src {place} {period} {weight} {phase} {hits}")?;
    }
    Ok(())
}

// Puts the lines of the cells of a map that are above 0.
fn put_cells(text: &mut Text, map: &[u8]) -> io::Result<()> {
    for (cell, value) in map.iter().enumerate().filter(|(_, value)| **value != 0) {
        writeln!(text, "map {cell} {value}")?;
    }
    Ok(())
}

// Puts the whole report on a run, its sources and their map.
fn put_report(text: &mut Text, run: Run, sources: Lists<'_>, map: &[u8]) -> io::Result<()> {
    let cells = reference::cells(run);
    let above = reference::count_above(map);
    put_run(text, run)?;
    writeln!(text, " {cells}")?;
    put_sources(text, run, sources)?;
    put_cells(text, map)?;
    writeln!(text, "end {above}")
}

// Puts the line of a refusal: its number, and the place of the source that it concerns, if there is one.
fn put_refusal(text: &mut Text, refusal: Refusal) -> io::Result<()> {
    let number = refusal.number;
    match refusal.place {
        None => writeln!(text, "refused {number}"),
        Some(place) => writeln!(text, "refused {number} source {place}"),
    }
}

// What is to be reported on a text: its refusal, or its run and sources with their map.
pub fn answer(judged: Judged, run: Run, sources: Lists<'_>, map: &mut [u8]) -> io::Result<Text> {
    let mut text = blank();
    if let Err(refusal) = judged {
        put_refusal(&mut text, refusal)?;
        return Ok(text);
    }
    reference::expect_made(run, sources, map);
    put_report(&mut text, run, sources, map)?;
    Ok(text)
}
