// Reach map for C.
ghost use Rattle.splicereel.specs.Reaching.{map_lent};
ghost use Rattle.splicereel_c.specs.Replies.{MapReplies};

use crate::tell::tell;
use splicereel::reach_map::reach_map;

// told[0]: the count of entries.
#[unsafe(no_mangle)]
pub extern "C" fn splicereel_reach_map(
    net: &[u8],
    from: usize,
    tolerance: usize,
    greatest: usize,
    best: &mut [u32],
    previous: &mut [u32],
    list: &mut [u32],
    told: &mut [u32; 8],
) -> u32
    ensures { MapReplies net.now from tolerance greatest
        (map_lent best.old previous.old list.old)
        (map_lent best.new previous.new list.new) told.old told.new result }
{
    tell(
        reach_map(net, from, tolerance, greatest, best, previous, list),
        told,
    )
}
