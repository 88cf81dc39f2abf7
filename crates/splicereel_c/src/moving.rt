// The moves for C.
ghost use Rattle.splicereel_c.specs.Replies.{MoveReplies};

use crate::tell::tell;
use splicereel::moving::{move_back, move_up};

// told[0]: the bytes written.
#[unsafe(no_mangle)]
pub extern "C" fn splicereel_move_up(net: &[u8], output: &mut [u8], told: &mut [u32; 8]) -> u32
    ensures { MoveReplies 2 3 net.now output.old output.new told.old told.new result }
{
    tell(move_up(net, output), told)
}

// The same.
#[unsafe(no_mangle)]
pub extern "C" fn splicereel_move_back(net: &[u8], output: &mut [u8], told: &mut [u32; 8]) -> u32
    ensures { MoveReplies 3 2 net.now output.old output.new told.old told.new result }
{
    tell(move_back(net, output), told)
}
