// Lent rooms: copied into, a number stored, bytes written one after the other.
// Every function is proved. No function here is a public operation: each is an inner step of the crates above.
#![tactic(auto)]

ghost use Rattle.std.specs.Prelude.{◌+◌, ◌≤◌, ◌≡◌, length, set};
ghost use Rattle.rooms.specs.Inner.{Written};

// Inner step. Copies all of `bytes` into a room of their length. A loop: std's `copy_from_slice` calls `memmove`, which an archive for C would
// then need from outside.
pub fn copy(bytes: &[u8], room: &mut [u8])
    requires { length room.old ≡ length bytes.now }
    ensures { room.new ≡ bytes.now }
{
    for k in 0..bytes.len() {
        room[k] = bytes[k];
    }
}

// Inner step. Stores a number in the room at k where the room is so long, and nothing elsewhere.
// No `get_mut`: once its borrow is over, a proof knows only the room's length.
pub fn put(room: &mut [u32], k: usize, number: u32)
    ensures { room.new ≡ set room.old k number }
{
    if k < room.len() {
        room[k] = number;
    }
}

// Inner step. Writes bytes into the room at `at` and answers where they end; the caller sees to it that they fit.
pub fn write_bytes(room: &mut [u8], at: usize, bytes: &[u8]) -> usize
    requires { at + length bytes.now ≤ length room.old }
    ensures { Written room.old at bytes.now result room.new }
{
    let end = at + bytes.len();
    copy(bytes, &mut room[at..end]);
    end
}
