// The list program: reads a run and its sources from standard input and writes the report on them, or the refusal.
// All that is printed is worked out by `report`. A read or a write that fails is told on standard error; without the whole text
// nothing is printed. A read that a signal interrupts counts as one that failed.
#![tactic(auto)]

ghost use Rattle.std.specs.Prelude.{◌≡◌, length, IfOk, OnOk, IsErrOf};
ghost use Rattle.std.specs.Io.KnownBytes.{Appends};
ghost use Rattle.report.specs.Promise.{PrintedOf};
ghost use Rattle.list.specs.Reading.{Whole, Listed};
ghost use Rattle.list.specs.Inner.{Stopped, ReadIn};

use report::Output;
use std::io::{Read, Write};
use std::{fmt, io};

// Room for the longest text and one byte more, so that a longer text is seen: `Whole` holds the number to 01's.
const ROOM: usize = 4097;

// What failed.
#[derive(Clone, Copy)]
enum Failure {
    // A read: there is no whole text, and nothing is printed.
    Reading,
    // A write: the report is not whole.
    Writing,
}

impl fmt::Display for Failure {
    fn fmt<W: fmt::Write>(&self, f: &mut fmt::Formatter<W>) -> fmt::Result {
        match self {
            Failure::Reading => write!(f, "reading standard input failed"),
            Failure::Writing => write!(f, "writing the report failed"),
        }
    }
}

// What was read: so many bytes, and how many of them the last read brought, by which `Whole` goes.
#[derive(Clone, Copy)]
struct Reading {
    count: usize,
    last: usize,
}

// Reads until the room is full or a read brings nothing. The first read that fails ends it. A read tells how many bytes it brought, so
// that no range counts the turns.
fn read_input<R: Read>(input: &mut R, room: &mut [u8]) -> io::Result<Reading>
    ensures read { IfOk result (λ reading. ReadIn (R.remaining input.old) (R.remaining input.new) reading.count room.new) }
    ensures stopped { IfOk result (Stopped (length room.new)) }
{
    let mut count = 0;
    let mut last = 0;
    while count < room.len() {
        last = input.read(&mut room[count..])?;
        if last == 0 {
            break;
        }
        count += last;
    }
    Ok(Reading { count, last })
}

// Writes the bytes, which are what is printed of the text. How that was read is given for the contract alone.
fn print<W: Write>(
    output: &mut W,
    reading: Reading,
    text: &[u8],
    bytes: &[u8],
) -> Result<(), Failure>
    requires whole { Whole reading text.now }
    requires printed { PrintedOf text.now bytes.now }
    ensures written { OnOk result (Appends (W.contents output.old) (W.contents output.new) bytes.now) }
    ensures wrote { IsErrOf result Failure.Reading → ⊥ }
{
    output.write_all(bytes).map_err(|_| Failure::Writing)
}

// Reads the text, and writes what is printed of it. The room is an array, since there is no heap. The failed read is told by let .. else: by
// `map_err` and `?` it was tried, and the proof lost what was read.
fn list<R: Read, W: Write>(input: &mut R, output: &mut W) -> Result<(), Failure>
    ensures listed { OnOk result (Listed (R.remaining input.old) (R.remaining input.new) (W.contents output.old) (W.contents output.new)) }
    ensures unread { IsErrOf result Failure.Reading → output.new ≡ output.old }
{
    let mut text = [0u8; ROOM];
    let Ok(reading) = read_input(input, &mut text) else {
        return Err(Failure::Reading);
    };
    let text = &text[..reading.count];
    let Output { length, bytes } = report::report(text);
    print(output, reading, text, &bytes[..length])
}

// What is written goes through `io::writer`: its `write_all` gives up where signals interrupt a write again and again, that of `rt.stdout()`
// would go on.
fn main(rt: HostRuntime) {
    let mut input = rt.stdin();
    let mut output = io::writer(&rt);
    if let Err(failure) = list(&mut input, &mut output) {
        let _ = eprintln!(rt; "list: {failure}");
    }
}
