// Reach map: every node within a tolerance and a greatest length of one node, with its least length.
ghost use Rattle.splicereel.specs.Reaching.{map_lent, MapPromise};
ghost use Rattle.splicereel.specs.Steps.Calls.{CornerRoom, NodeRoom};

use crate::checks::{ask_from, check_entries};
use frames::sizes;
use network::corners::{COUNTY_CORNERS, TOWN_CORNERS, free_corners};
use network::kept::is_county;
use network::legs::no_legs;
use refusals::Refusal;
use search_reach::map::reach;
use search_rounds::explore::unknown;

// Writes the entries at the front of the list, each two numbers, the node and its least length in feet, in rising node number, and gives their count.
#[tactic(auto, using(crate::proofs::MemoryLaws::town_corners, crate::proofs::MemoryLaws::town_nodes))]
pub fn reach_map(
    net: &[u8],
    from: usize,
    tolerance: usize,
    greatest: usize,
    best: &mut [u32],
    previous: &mut [u32],
    list: &mut [u32],
) -> Result<usize, Refusal>
    ensures { MapPromise net.now from tolerance greatest
        (map_lent best.old previous.old list.old)
        (map_lent best.new previous.new list.new) result }
{
    if is_county(net) {
        return reach_map_in_county(net, from, tolerance, greatest, best, previous, list);
    }
    reach_map_in::<TOWN_CORNERS, { sizes::TOWN }>(
        net, from, tolerance, greatest, best, previous, list,
    )
}

// The same in a county's memory. It is never inlined: a town takes no stack for a county.
#[inline(never)]
#[tactic(auto, using(crate::proofs::MemoryLaws::county_corners, crate::proofs::MemoryLaws::county_nodes))]
pub fn reach_map_in_county(
    net: &[u8],
    from: usize,
    tolerance: usize,
    greatest: usize,
    best: &mut [u32],
    previous: &mut [u32],
    list: &mut [u32],
) -> Result<usize, Refusal>
    ensures { MapPromise net.now from tolerance greatest
        (map_lent best.old previous.old list.old)
        (map_lent best.new previous.new list.new) result }
{
    reach_map_in::<COUNTY_CORNERS, { sizes::COUNTY }>(
        net, from, tolerance, greatest, best, previous, list,
    )
}

// The same in memory for so many corners and nodes.
#[tactic(auto, unfolding(crate::specs::Finding::reach_refusal))]
fn reach_map_in<const CORNERS: usize, const NODES: usize>(
    net: &[u8],
    from: usize,
    tolerance: usize,
    greatest: usize,
    best: &mut [u32],
    previous: &mut [u32],
    list: &mut [u32],
) -> Result<usize, Refusal>
    requires { CornerRoom net.now CORNERS × NodeRoom net.now NODES }
    ensures { MapPromise net.now from tolerance greatest
        (map_lent best.old previous.old list.old)
        (map_lent best.new previous.new list.new) result }
{
    let mut legs = no_legs::<NODES>();
    let mut index = free_corners::<CORNERS>();
    let ask = ask_from(net, &mut legs, &mut index, from, tolerance, best, previous)?;
    check_entries(2 * ask.streets.net.nodes(), list.len())?;
    let goals = unknown::<NODES>();
    Ok(reach(&ask, greatest, &goals, best, previous, list))
}
