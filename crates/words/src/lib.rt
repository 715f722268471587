// A line of a text: a word and numbers, single spaces before them and a newline behind; read, and written.
// Every function is proved. No function here is a public operation: each is an inner step of the crates above.
#![tactic(auto)]

ghost use Rattle.std.specs.Prelude.{length};
ghost use Rattle.decimal.specs.Inner.{Fits, Writes};
ghost use Rattle.words.specs.Line.{line};
ghost use Rattle.words.specs.Inner.{WordAt, FieldAt, LineAt};

use decimal::Page;
use scope::Reason;

// Where a word ends that the text has at `at`. Each step of reading answers where that ends which it looks for, or with the reason to
// refuse for, which the caller gave. It is taken apart by let .. else, with the refusal returned: document 01's form for this place.
fn read_word(text: &[u8], at: usize, word: &[u8], reason: Reason) -> Result<usize, Reason>
    ensures { WordAt text.now at word.now reason result }
{
    let rest = &text[at.min(text.len())..];
    if rest.starts_with(word) {
        Ok(at + word.len())
    } else {
        Err(reason)
    }
}

// Where a space and a number end; the number goes into the room at k.
fn read_field(
    text: &[u8],
    at: usize,
    room: &mut [u32],
    k: usize,
    reason: Reason,
) -> Result<usize, Reason>
    ensures { FieldAt text.now at room.old k room.new reason result }
{
    let Ok(start) = read_word(text, at, b" ", reason) else {
        return Err(reason);
    };
    let Some((number, next)) = decimal::read_number(text, start) else {
        return Err(reason);
    };
    rooms::put(room, k, number);
    Ok(next)
}

// Inner step. Where a line ends that has the word and as many numbers as there is room for; the numbers go into the room, by index: of a
// room gone through by `iter_mut` nothing is known once it is written.
pub fn read_line(
    text: &[u8],
    at: usize,
    word: &[u8],
    room: &mut [u32],
    reason: Reason,
) -> Result<usize, Reason>
    ensures { LineAt text.now at word.now (length room.old) room.new reason result }
{
    let Ok(mut next) = read_word(text, at, word, reason) else {
        return Err(reason);
    };
    for k in 0..room.len() {
        let Ok(end) = read_field(text, next, room, k, reason) else {
            return Err(reason);
        };
        next = end;
    }
    read_word(text, next, b"\n", reason)
}

// Inner step. Writes a line, a word and its numbers; the caller sees to it that it fits.
pub fn write_line(page: &mut Page<'_>, word: &[u8], numbers: &[u64])
    requires { Fits page.old (line word.now numbers.now) }
    ensures { Writes page.old (line word.now numbers.now) page.new }
{
    page.write_bytes(word);
    for number in numbers {
        page.write_bytes(b" ");
        page.write_number(*number);
    }
    page.write_bytes(b"\n");
}
