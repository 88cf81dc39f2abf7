// Document 02, note 1: the part of a text that holds the refused line, without its 0A, and the refusal's number. The text is judged as Read judges it, in one
// pass; where the refused line begins is then known from the lengths of the lines before it, and only that line is searched for its end.
#![tactic(auto)]

ghost use Rattle.std.specs.Prelude.{◌≡◌, length};
ghost use Rattle.cursor.specs.Cursor.{cursor_of, Points};
ghost use Rattle.cursor.specs.Lines.{first_line};
ghost use Rattle.cursor.specs.Steps.Places.{WholeBefore, Begins};

use digits::decode_into;
use frames::decoded::head_of;
use frames::edition::frame_bytes;
use frames::fields;
use memchr::memchr;
use refusals::Refusal;
use text::Refused;
use text::read::judge_text;

// A refusal's number, and the part of the text that holds the refused line: where it begins, and how many bytes it has.
#[derive(Clone, Copy)]
pub struct Cursor {
    pub number: u8,
    pub start: usize,
    pub length: usize,
}

// The number, and the part itself.
#[derive(Clone, Copy)]
pub struct Part<'a> {
    pub number: u8,
    pub bytes: &'a [u8],
}

// How many bytes a text's first line has, without its 0A.
fn line_length(text: &[u8]) -> usize
    ensures { result ≡ length (first_line text.now) }
{
    memchr(b'\n', text).unwrap_or(text.len())
}

// Where a refused line begins. The lines before it have no fault: they are a head's and frames', of known lengths.
fn line_start(text: &[u8], line: usize) -> usize
    requires { WholeBefore text.now line }
    ensures { Begins text.now line result }
{
    if line < 2 {
        return 0;
    }
    let mut first = [0u8; fields::HEAD_BYTES];
    decode_into(text, &mut first);
    let head = head_of(&first);
    let size = frame_bytes(head.edition);
    fields::HEAD_LINE + (2 * size + 1) * (line - 2)
}

// The number and the place of the refused line of a text that Read would be asked to read into an output of `room` bytes.
pub fn locate(text: &[u8], room: usize) -> Cursor
    ensures { result ≡ cursor_of text.now room }
{
    match judge_text(text, room) {
        Ok(_) => Cursor {
            number: u8::from(Refusal::NoRefusedLine),
            start: text.len(),
            length: 0,
        },
        Err(Refused { refusal, line }) => {
            let start = line_start(text, line);
            Cursor {
                number: u8::from(refusal),
                start,
                length: line_length(&text[start..]),
            }
        }
    }
}

// The same as a part of the caller's text, with the number beside it.
pub fn refused_line<'a>(text: &'a [u8], room: usize) -> Part<'a>
    ensures { Points text.entry room result.bytes result.number }
{
    let cursor = locate(text, room);
    let end = cursor.start + cursor.length;
    Part {
        number: cursor.number,
        bytes: &text[cursor.start..end],
    }
}
