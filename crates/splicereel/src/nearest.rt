// Nearest: of the marked nodes the nearest to one node, within a tolerance.
ghost use Rattle.splicereel.specs.Reaching.{scratch, NearestPromise};
ghost use Rattle.splicereel.specs.Steps.Calls.{CornerRoom, NodeRoom};

use crate::checks::{ask_from, check_entries};
use frames::sizes;
use network::corners::{COUNTY_CORNERS, TOWN_CORNERS, free_corners};
use network::kept::is_county;
use network::legs::no_legs;
use refusals::Refusal;
use routes::Entry;

// The nearest of the nodes whose byte in `marks` is not 0, with its least length in feet; of equally near ones the one with the lowest number. None where no
// marked node has a route within the tolerance.
#[tactic(auto, using(crate::proofs::MemoryLaws::town_corners, crate::proofs::MemoryLaws::town_nodes))]
pub fn nearest(
    net: &[u8],
    from: usize,
    tolerance: usize,
    marks: &[u8],
    best: &mut [u32],
    previous: &mut [u32],
) -> Result<Option<Entry>, Refusal>
    ensures { NearestPromise net.now from tolerance marks.now
        (scratch best.old previous.old) (scratch best.new previous.new) result }
{
    if is_county(net) {
        return nearest_in_county(net, from, tolerance, marks, best, previous);
    }
    nearest_in::<TOWN_CORNERS, { sizes::TOWN }>(net, from, tolerance, marks, best, previous)
}

// The same in a county's memory. It is never inlined: a town takes no stack for a county.
#[inline(never)]
#[tactic(auto, using(crate::proofs::MemoryLaws::county_corners, crate::proofs::MemoryLaws::county_nodes))]
pub fn nearest_in_county(
    net: &[u8],
    from: usize,
    tolerance: usize,
    marks: &[u8],
    best: &mut [u32],
    previous: &mut [u32],
) -> Result<Option<Entry>, Refusal>
    ensures { NearestPromise net.now from tolerance marks.now
        (scratch best.old previous.old) (scratch best.new previous.new) result }
{
    nearest_in::<COUNTY_CORNERS, { sizes::COUNTY }>(net, from, tolerance, marks, best, previous)
}

// The same in memory for so many corners and nodes.
#[tactic(auto, unfolding(crate::specs::Finding::reach_refusal))]
fn nearest_in<const CORNERS: usize, const NODES: usize>(
    net: &[u8],
    from: usize,
    tolerance: usize,
    marks: &[u8],
    best: &mut [u32],
    previous: &mut [u32],
) -> Result<Option<Entry>, Refusal>
    requires { CornerRoom net.now CORNERS × NodeRoom net.now NODES }
    ensures { NearestPromise net.now from tolerance marks.now
        (scratch best.old previous.old) (scratch best.new previous.new) result }
{
    let mut legs = no_legs::<NODES>();
    let mut index = free_corners::<CORNERS>();
    let ask = ask_from(net, &mut legs, &mut index, from, tolerance, best, previous)?;
    check_entries(ask.streets.net.nodes(), marks.len())?;
    Ok(search_reach::nearest::nearest(&ask, marks, best, previous))
}
