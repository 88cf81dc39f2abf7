// The reach map: one pass over the nodes after a search up to the greatest length.
ghost use Rattle.std.specs.Prelude.{◌≡◌};
ghost use Rattle.network.specs.Network.{nodes_of};
ghost use Rattle.routes.specs.Reach.{MapWritten};
ghost use Rattle.streets.specs.Bicycle.{bicycle};
ghost use Rattle.search_labels.specs.Steps.Labels.{Room};
ghost use Rattle.search_relaxing.specs.Steps.Counted.{network_in};
ghost use Rattle.search_routes.specs.Steps.Answered.{Unmarked};
ghost use Rattle.search_reach.specs.Steps.Map.{clamped, ListRoom, AskedAt, Listable, NodeListed, Nodes, NodesListed};

use crate::arrivals::Lengths;
use search_labels::{NONE, key_of};
use search_relaxing::Ask;
use search_rounds::search::Search;

// A greatest length as a label: no route is as long as NONE.
fn clamp(greatest: usize) -> u32
    ensures { result ≡ clamped greatest }
{
    greatest.min(NONE as usize - 1) as u32
}

impl Lengths<'_, '_> {
    // Writes the entry of a node at a place of the list, if it is no farther, and gives the place behind it.
    fn list_node(&self, farthest: u32, node: usize, list: &mut [u32], place: usize) -> usize
        requires { Listable self.now.index.now self.now.best.now node list.old place }
        ensures { NodeListed self.now.index.now self.now.best.now self.now.from farthest node list.old list.new place result }
    {
        let length = self.length_to(node);
        if farthest < length {
            return place;
        }
        let number = node as u32;
        list[place] = number;
        list[place + 1] = length;
        place + 2
    }

    // Writes the entries of all nodes, in rising order, and gives their number.
    #[tactic(auto, using(crate::proofs::Listing::listing_none, crate::proofs::Listing::listing_more))]
    fn list_nodes(&self, farthest: u32, nodes: usize, list: &mut [u32]) -> usize
        requires { Nodes self.now.index.now self.now.best.now nodes list.old }
        ensures { NodesListed self.now.index.now self.now.best.now self.now.from farthest nodes list.old list.new result }
    {
        let mut place = 0;
        for node in 0..nodes {
            place = self.list_node(farthest, node, list, place);
        }
        place / 2
    }
}

// Lists the nodes within the tolerance and the greatest length, and gives the number of entries. It is the exploration with no goal, up to that length.
pub fn reach(
    ask: &Ask,
    greatest: usize,
    goals: &[u8],
    best: &mut [u32],
    previous: &mut [u32],
    list: &mut [u32],
) -> usize
    requires { AskedAt ask.now × Room ask.now.runs best.old previous.old × Unmarked ask.now goals.now
        × ListRoom ask.now list.old }
    ensures { MapWritten (bicycle (network_in ask.now)) (nodes_of (network_in ask.now)) ask.now.tolerance ask.now.from greatest
        list.old list.new result }
{
    let farthest = clamp(greatest);
    let limited = Ask {
        streets: ask.streets,
        index: ask.index,
        runs: ask.runs,
        least: ask.least,
        tolerance: ask.tolerance,
        from: ask.from,
        limit: key_of(farthest, 0),
    };
    let search = Search {
        ask: limited,
        goals,
    };
    let _ = search.explore(best, previous);
    let lengths = Lengths {
        index: ask.index,
        best,
        from: ask.from,
    };
    lengths.list_nodes(farthest, ask.streets.net.nodes(), list)
}
