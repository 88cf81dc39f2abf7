// The refused line for C.
ghost use Rattle.splicereel_c.specs.Replies.{Replies, LineReplies, line_reply};

use cursor::Cursor;
use splicereel::refused_line::locate;

fn tell(cursor: Cursor, part: &mut [usize; 2]) -> u32
    ensures { Replies (line_reply cursor) part.old part.new result }
{
    part[0] = cursor.start;
    part[1] = cursor.length;
    u32::from(cursor.number)
}

// part[0]: where the part begins; part[1]: its bytes. Both are always written.
#[unsafe(no_mangle)]
pub extern "C" fn splicereel_refused_line(text: &[u8], room: usize, part: &mut [usize; 2]) -> u32
    ensures { LineReplies text.now room part.old part.new result }
{
    tell(locate(text, room), part)
}
