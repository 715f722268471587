// What the list program prints: a report on a run and its sources, or the refusal.
// Every function is proved. `report` is the one public operation here, and it asks nothing of its caller.
#![tactic(auto)]

ghost use Rattle.std.specs.Prelude.{◌≤◌, ◌≡◌, ◌++◌, length};
ghost use Rattle.rooms.specs.Lists.{zeros};
ghost use Rattle.decimal.specs.Inner.{Fits, Writes};
ghost use Rattle.scope.specs.Run.{ValidRun, ValidSource, cells_of};
ghost use Rattle.scope.specs.Hit.{hits_from};
ghost use Rattle.scope.specs.Refusal.{number};
ghost use Rattle.text.specs.Promise.{most_cells, sources_in};
ghost use Rattle.report.specs.Report.{run_report, entry_report, src_report, cell_report, map_report, above, end_report, cells_report, whole_report, refusal_report};
ghost use Rattle.report.specs.Promise.{room_bytes, ReportPromise};
ghost use Rattle.report.specs.Inner.{ValidInput, Blank, WritesReport};

use decimal::Page;
use scope::{Place, Refusal, Run, RunCell, Source};
use sources::Entry;
use text::Input;

// Room for the longest report.
const ROOM: usize = 921600;
// A run in a text has at most so many cells: `most_cells` of the specs, to which crate text is held too.
const CELLS: usize = 65536;

// What the list program prints: how many bytes, and the bytes; the rest is 0. The longest report has 921,354 bytes at most.
// A room with a length beside it, since there is no heap.
#[derive(Clone, Copy)]
pub struct Output {
    pub length: usize,
    pub bytes: [u8; ROOM],
}

// A room for the longest report, with nothing in it. It has a function of its own, so that no proof looks at its bytes one by one.
fn blank() -> [u8; ROOM]
    ensures { result ≡ zeros room_bytes }
{
    [0; ROOM]
}

// Writes the line of a cell above 0; for a cell of 0 there is none.
fn write_cell(page: &mut Page<'_>, cell: RunCell, value: u8)
    requires { Fits page.old (cell_report cell.0 value) }
    ensures { Writes page.old (cell_report cell.0 value) page.new }
{
    if value == 0 {
        return;
    }
    words::write_line(page, b"map", &[cell.0, u64::from(value)]);
}

// Writes the lines of all cells above 0.
fn write_map(page: &mut Page<'_>, map: &[u8])
    requires { Fits page.old (map_report 0 map.now) }
    ensures { Writes page.old (map_report 0 map.now) page.new }
{
    for (x, value) in map.iter().enumerate() {
        write_cell(page, RunCell(x as u64), *value);
    }
}

// How many cells are above 0.
fn count_above(map: &[u8]) -> u64
    ensures { result ≡ above map.now }
{
    map.iter().filter(|value| **value != 0).count() as u64
}

// Writes the lines of all cells above 0, and the line that counts them.
fn write_cells(page: &mut Page<'_>, map: &[u8])
    requires { Fits page.old (map_report 0 map.now ++ end_report map.now) }
    ensures { Writes page.old (map_report 0 map.now ++ end_report map.now) page.new }
{
    write_map(page, map);
    words::write_line(page, b"end", &[count_above(map)]);
}

// How many cells of a run a source hits. They are no more than its cells, so all of them are listed in one call. The room for them is an
// array, as that of the cells below, since there is no heap.
fn count_hits(run: Run, source: Source) -> u64
    requires { ValidRun run × ValidSource source × (cells_of run ≤ most_cells) }
    ensures { result ≡ length (hits_from run source 0) }
{
    let mut room = [0; CELLS];
    let listing = hits::list_hits(run, source, RunCell(0), &mut room).unwrap();
    listing.count as u64
}

// Writes the line of the source at a place of the list, counted from 1.
fn write_source(page: &mut Page<'_>, run: Run, place: usize, entry: Entry)
    requires valid { ValidRun run × ValidSource entry.source × (cells_of run ≤ most_cells) }
    requires fits { Fits page.old (entry_report run place entry) }
    ensures { Writes page.old (entry_report run place entry) page.new }
{
    let source = entry.source;
    let numbers = [
        place as u64,
        u64::from(source.period),
        u64::from(entry.weight),
        u64::from(source.phase),
        count_hits(run, source),
    ];
    words::write_line(page, b"src", &numbers);
}

// Writes the lines of all sources. That the input is valid stays a clause: a struct around `Input` would serve three steps here alone.
fn write_sources(page: &mut Page<'_>, input: &Input)
    requires valid { ValidInput input.now }
    requires fits { Fits page.old (src_report input.now.run 1 (sources_in input.now)) }
    ensures { Writes page.old (src_report input.now.run 1 (sources_in input.now)) page.new }
{
    let sources = input.sources();
    for k in 0..sources.len() {
        write_source(page, input.run, k + 1, sources.entry(k));
    }
}

// Writes the line of a run.
fn write_run(page: &mut Page<'_>, run: Run)
    requires valid { ValidRun run }
    requires fits { Fits page.old (run_report run) }
    ensures { Writes page.old (run_report run) page.new }
{
    let numbers = [
        u64::from(run.window),
        u64::from(run.interval),
        u64::from(run.first),
        u64::from(run.last),
        scope::cells(run),
    ];
    words::write_line(page, b"run", &numbers);
}

// Makes the map of a run in cells of any values, as many as the run has, and writes it.
fn write_map_of(page: &mut Page<'_>, input: &Input, map: &mut [u8])
    requires valid { ValidInput input.now }
    requires whole { length map.old ≡ cells_of input.now.run }
    requires fits { Fits page.old (cells_report input.now.run (sources_in input.now)) }
    ensures { Writes page.old (cells_report input.now.run (sources_in input.now)) page.new }
{
    let count = input.count;
    let periods = &input.periods[..count];
    let weights = &input.weights[..count];
    let phases = &input.phases[..count];
    map::make_map(input.run, periods, weights, phases, map).unwrap();
    write_cells(page, map);
}

// Writes the whole report on a run and its sources.
fn write_report(page: &mut Page<'_>, input: &Input)
    requires valid { ValidInput input.now }
    requires fits { Fits page.old (whole_report input.now.run (sources_in input.now)) }
    ensures { Writes page.old (whole_report input.now.run (sources_in input.now)) page.new }
{
    let run = input.run;
    write_run(page, run);
    write_sources(page, input);
    let mut cells = [0; CELLS];
    let count = scope::cells(run) as usize;
    write_map_of(page, input, &mut cells[..count]);
}

// Writes the line of a refusal: its number, and where a source is at fault that source's place.
fn write_refusal(page: &mut Page<'_>, refusal: Refusal)
    requires { Blank page.old }
    ensures { Writes page.old (refusal_report (number refusal.reason) refusal.place) page.new }
{
    let Refusal { reason, place } = refusal;
    let number = u64::from(u8::from(reason));
    match place {
        Place::Nowhere => words::write_line(page, b"refused", &[number]),
        Place::AtSource(k) => {
            page.write_bytes(b"refused ");
            page.write_number(number);
            words::write_line(page, b" source", &[k]);
        }
    }
}

// Writes what is printed of a text.
fn write_reply(page: &mut Page<'_>, text: &[u8])
    requires { Blank page.old }
    ensures { WritesReport text.now page.old page.new }
{
    match text::read_text(text) {
        Ok(input) => write_report(page, &input),
        Err(refusal) => write_refusal(page, refusal),
    }
}

// Public operation. What the list program prints of a text.
pub fn report(text: &[u8]) -> Output
    ensures { ReportPromise text.now result }
{
    let mut bytes = blank();
    let mut page = Page::new(&mut bytes);
    write_reply(&mut page, text);
    let length = page.at;
    Output { length, bytes }
}
