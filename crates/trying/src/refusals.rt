// The library's replies compared with what is to be said: its refusals, a reason and a place each, with the number and the place of the
// tables.
use crate::reference::Refusal;
use scope::{Place, Reason};

// The number of a reason, read off the tables of 01 and 02 once more, so that the library's own numbering is held to them.
fn number_of(reason: Reason) -> u8 {
    match reason {
        Reason::Window => 1,
        Reason::Interval => 3,
        Reason::Period => 4,
        Reason::Remainder => 5,
        Reason::WiderThanPeriod => 6,
        Reason::Weight => 7,
        Reason::Start => 8,
        Reason::Room => 9,
        Reason::Lists => 10,
        Reason::Text => 11,
        Reason::TooMany => 12,
        Reason::FileBlocks => 13,
        Reason::Check => 14,
        Reason::Layout => 15,
        Reason::LineOrder => 17,
        Reason::LastLine => 18,
        Reason::Threshold => 19,
        Reason::Guard => 20,
        Reason::StretchRoom => 21,
        Reason::Phase => 22,
    }
}

// The place of the source that a refusal concerns, if it concerns one. No From: neither type is of this crate.
fn place_of(place: Place) -> Option<u64> {
    match place {
        Place::Nowhere => None,
        Place::AtSource(k) => Some(k),
    }
}

// Whether the library's refusal is the one of the tables, by its own numbering too.
pub fn same(given: scope::Refusal, expected: Refusal) -> bool {
    let number = number_of(given.reason);
    number == expected.number
        && u8::from(given.reason) == number
        && place_of(given.place) == expected.place
}

// Whether a reply of the library is as it is to be: refused so, or not refused, and the same answer.
pub fn agrees<T: PartialEq + Drop>(
    reply: Result<T, scope::Refusal>,
    expected: Result<T, Refusal>,
) -> bool {
    match (reply, expected) {
        (Ok(answer), Ok(right)) => answer == right,
        (Err(given), Err(refusal)) => same(given, refusal),
        _ => false,
    }
}
