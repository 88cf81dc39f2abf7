// Standard input, for the programs. What a reader gives is put at the front of a lent slice, until the slice is full, the reader is at its end or a read fails.
#![tactic(auto)]

ghost use Rattle.std.specs.Prelude.{◌≤◌, length, take};
ghost use Rattle.std.specs.Io.KnownBytes.{Consumes};

use std::io::Read;

// How many bytes were put there.
pub fn read_full<R: Read>(input: &mut R, room: &mut [u8]) -> usize
    ensures inside { result ≤ length room.new }
    ensures bytes { Consumes (R.remaining input.old) (R.remaining input.new) (take result room.new) }
{
    let mut count: usize = 0;
    while count < room.len() {
        match input.read(&mut room[count..]) {
            Ok(0) | Err(_) => break,
            Ok(more) => count += more,
        }
    }
    count
}
