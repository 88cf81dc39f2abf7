// Least stress: the smallest tolerance at which a route exists, and a shortest route within it.
ghost use Rattle.splicereel.specs.Promises.{lent, LeastPromise};
ghost use Rattle.splicereel.specs.Steps.Calls.{CornerRoom, NodeRoom};

use crate::checks::{check_node, check_room, indexed_streets};
use frames::sizes;
use network::corners::{COUNTY_CORNERS, TOWN_CORNERS, free_corners};
use network::kept::is_county;
use network::legs::no_legs;
use queue::TOP;
use refusals::Refusal;
use routes::LeastRoute;
use search_relaxing::Ask;
use search_rounds::explore::unknown;
use search_routes::find::find;

// As `route`, at the smallest tolerance from 1 to 4 that has a route; none where no route is within tolerance 4.
#[tactic(auto, using(crate::proofs::MemoryLaws::town_corners, crate::proofs::MemoryLaws::town_nodes))]
pub fn least_stress(
    net: &[u8],
    from: usize,
    to: usize,
    best: &mut [u32],
    previous: &mut [u32],
    buffer: &mut [u16],
    place: usize,
) -> Result<Option<LeastRoute>, Refusal>
    ensures { LeastPromise net.now from to
        (lent best.old previous.old buffer.old)
        (lent best.new previous.new buffer.new) place result }
{
    if is_county(net) {
        return least_stress_in_county(net, from, to, best, previous, buffer, place);
    }
    least_stress_in::<TOWN_CORNERS, { sizes::TOWN }>(net, from, to, best, previous, buffer, place)
}

// The same in a county's memory. It is never inlined: a town takes no stack for a county.
#[inline(never)]
#[tactic(auto, using(crate::proofs::MemoryLaws::county_corners, crate::proofs::MemoryLaws::county_nodes))]
pub fn least_stress_in_county(
    net: &[u8],
    from: usize,
    to: usize,
    best: &mut [u32],
    previous: &mut [u32],
    buffer: &mut [u16],
    place: usize,
) -> Result<Option<LeastRoute>, Refusal>
    ensures { LeastPromise net.now from to
        (lent best.old previous.old buffer.old)
        (lent best.new previous.new buffer.new) place result }
{
    least_stress_in::<COUNTY_CORNERS, { sizes::COUNTY }>(
        net, from, to, best, previous, buffer, place,
    )
}

// The same in memory for so many corners and nodes.
#[tactic(auto, unfolding(crate::specs::Finding::least_stress_refusal, crate::specs::Finding::nodes_refusal))]
fn least_stress_in<const CORNERS: usize, const NODES: usize>(
    net: &[u8],
    from: usize,
    to: usize,
    best: &mut [u32],
    previous: &mut [u32],
    buffer: &mut [u16],
    place: usize,
) -> Result<Option<LeastRoute>, Refusal>
    requires { CornerRoom net.now CORNERS × NodeRoom net.now NODES }
    ensures { LeastPromise net.now from to
        (lent best.old previous.old buffer.old)
        (lent best.new previous.new buffer.new) place result }
{
    let mut legs = no_legs::<NODES>();
    let mut index = free_corners::<CORNERS>();
    let streets = indexed_streets(net, &mut legs, &mut index)?;
    let nodes = streets.net.nodes();
    let runs = streets.net.runs();
    check_node(nodes, from)?;
    check_node(nodes, to)?;
    check_room(runs, best.len(), previous.len(), buffer.len(), place)?;
    let ask = Ask {
        streets,
        index: &index,
        runs,
        least: 1,
        tolerance: 4,
        from,
        limit: TOP,
    };
    let mut goals = unknown::<NODES>();
    Ok(find(&ask, to, best, previous, buffer, place, &mut goals))
}
