// Nearest for C.
ghost use Rattle.splicereel.specs.Reaching.{scratch};
ghost use Rattle.splicereel_c.specs.Replies.{NearestReplies};
ghost use Rattle.splicereel_c.specs.Steps.Tells.{NearestFits, nearest_entries};

use crate::tell::{Told, tell};
use routes::Entry;
use splicereel::nearest::nearest;

impl Told for Option<Entry> {
    ghost fits = { NearestFits };

    ghost entries = { nearest_entries };

    fn write(self, told: &mut [u32; 8]) {
        match self {
            None => told[0] = 0,
            Some(entry) => {
                told[0] = 1;
                told[1] = entry.node as u32;
                told[2] = entry.length;
            }
        }
    }
}

// told[0]: 1 found, 0 none; where found told[1]: the node, told[2]: the length.
#[unsafe(no_mangle)]
pub extern "C" fn splicereel_nearest(
    net: &[u8],
    from: usize,
    tolerance: usize,
    marks: &[u8],
    best: &mut [u32],
    previous: &mut [u32],
    told: &mut [u32; 8],
) -> u32
    ensures { NearestReplies net.now from tolerance marks.now
        (scratch best.old previous.old) (scratch best.new previous.new)
        told.old told.new result }
{
    tell(nearest(net, from, tolerance, marks, best, previous), told)
}
