// Route: a shortest way from node to node that never goes above a tolerance.
ghost use Rattle.std.specs.Prelude.{◌≡◌};
ghost use Rattle.splicereel.specs.Finding.{fits};
ghost use Rattle.splicereel.specs.Promises.{lent, RoutePromise};
ghost use Rattle.splicereel.specs.Steps.Calls.{CornerRoom, NodeRoom};

use crate::checks::{check_node, check_room, has_scratch, indexed_streets, tolerance_of};
use frames::sizes;
use network::corners::{COUNTY_CORNERS, TOWN_CORNERS, free_corners};
use network::kept::is_county;
use network::legs::no_legs;
use queue::TOP;
use refusals::Refusal;
use routes::Found;
use search_relaxing::Ask;
use search_rounds::explore::unknown;
use search_routes::find::find;

// The lent slices have room for a number for each run, the buffer from the place on. What is left of the buffer is compared, so that no sum can pass the
// greatest number.
#[tactic(auto, unfolding(crate::specs::Finding::fits))]
pub fn has_room(runs: usize, best: usize, previous: usize, buffer: usize, place: usize) -> bool
    ensures { result ≡ fits runs best previous buffer place }
{
    has_scratch(runs, best, previous) && place <= buffer && runs <= buffer - place
}

// Writes the runs of a shortest route within the tolerance into the buffer from the place on, and gives their count, the length in feet and the level; none
// where no route is within the tolerance.
#[tactic(auto, using(crate::proofs::MemoryLaws::town_corners, crate::proofs::MemoryLaws::town_nodes))]
pub fn route(
    net: &[u8],
    from: usize,
    to: usize,
    tolerance: usize,
    best: &mut [u32],
    previous: &mut [u32],
    buffer: &mut [u16],
    place: usize,
) -> Result<Option<Found>, Refusal>
    ensures { RoutePromise net.now from to tolerance
        (lent best.old previous.old buffer.old)
        (lent best.new previous.new buffer.new) place result }
{
    if is_county(net) {
        return route_in_county(net, from, to, tolerance, best, previous, buffer, place);
    }
    route_in::<TOWN_CORNERS, { sizes::TOWN }>(
        net, from, to, tolerance, best, previous, buffer, place,
    )
}

// The same in a county's memory. It is never inlined: a town takes no stack for a county.
#[inline(never)]
#[tactic(auto, using(crate::proofs::MemoryLaws::county_corners, crate::proofs::MemoryLaws::county_nodes))]
pub fn route_in_county(
    net: &[u8],
    from: usize,
    to: usize,
    tolerance: usize,
    best: &mut [u32],
    previous: &mut [u32],
    buffer: &mut [u16],
    place: usize,
) -> Result<Option<Found>, Refusal>
    ensures { RoutePromise net.now from to tolerance
        (lent best.old previous.old buffer.old)
        (lent best.new previous.new buffer.new) place result }
{
    route_in::<COUNTY_CORNERS, { sizes::COUNTY }>(
        net, from, to, tolerance, best, previous, buffer, place,
    )
}

// The same in memory for so many corners and nodes.
#[tactic(auto, unfolding(crate::specs::Finding::route_refusal, crate::specs::Finding::nodes_refusal))]
fn route_in<const CORNERS: usize, const NODES: usize>(
    net: &[u8],
    from: usize,
    to: usize,
    tolerance: usize,
    best: &mut [u32],
    previous: &mut [u32],
    buffer: &mut [u16],
    place: usize,
) -> Result<Option<Found>, Refusal>
    requires { CornerRoom net.now CORNERS × NodeRoom net.now NODES }
    ensures { RoutePromise net.now from to tolerance
        (lent best.old previous.old buffer.old)
        (lent best.new previous.new buffer.new) place result }
{
    let mut legs = no_legs::<NODES>();
    let mut index = free_corners::<CORNERS>();
    let streets = indexed_streets(net, &mut legs, &mut index)?;
    let nodes = streets.net.nodes();
    let runs = streets.net.runs();
    check_node(nodes, from)?;
    check_node(nodes, to)?;
    let tolerance = tolerance_of(tolerance)?;
    check_room(runs, best.len(), previous.len(), buffer.len(), place)?;
    let ask = Ask {
        streets,
        index: &index,
        runs,
        least: tolerance,
        tolerance,
        from,
        limit: TOP,
    };
    let mut goals = unknown::<NODES>();
    let least = find(&ask, to, best, previous, buffer, place, &mut goals);
    Ok(least.map(|least| least.route))
}
