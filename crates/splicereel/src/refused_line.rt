// The refused line: the part of a text that holds the line that Read would refuse.
ghost use Rattle.std.specs.Prelude.{◌≡◌};
ghost use Rattle.cursor.specs.Cursor.{cursor_of, Points};

use cursor::{Cursor, Part};

// The part of the caller's text that holds the refused line, without its 0A, where Read would be lent an output of `room` bytes; and the refusal's number,
// which is 14 for a text that Read would accept.
pub fn refused_line<'a>(text: &'a [u8], room: usize) -> Part<'a>
    ensures { Points text.entry room result.bytes result.number }
{
    cursor::refused_line(text, room)
}

// The same as numbers: where the part begins, and how many bytes it has.
pub fn locate(text: &[u8], room: usize) -> Cursor
    ensures { result ≡ cursor_of text.now room }
{
    cursor::locate(text, room)
}
