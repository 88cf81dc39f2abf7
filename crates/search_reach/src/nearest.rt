// The nearest of marked nodes: the exploration stops at the nearest run that arrives at one. Of the marked nodes that are no farther, the one with the
// lowest number is the nearest.
ghost use Rattle.std.specs.Prelude.{◌≡◌};
ghost use Rattle.network.specs.Network.{nodes_of};
ghost use Rattle.streets.specs.Bicycle.{bicycle};
ghost use Rattle.search_labels.specs.Steps.Labels.{Room};
ghost use Rattle.search_relaxing.specs.Steps.Counted.{network_in};
ghost use Rattle.search_reach.specs.Steps.Map.{AskedAt};
ghost use Rattle.search_reach.specs.Steps.Nearest.{is_far, Marks, Markable, AllMarkable, FirstOf, Nearby};

use crate::arrivals::Lengths;
use routes::Entry;
use search_labels::label_in;
use search_relaxing::Ask;
use search_rounds::search::Search;

impl Lengths<'_, '_> {
    // The node is not marked, or farther than the length.
    #[tactic(auto, unfolding(crate::specs::Steps::Nearest::is_far, routes::specs::Reach::is_marked))]
    fn is_far(&self, marks: &[u8], length: u32, node: usize) -> bool
        requires { Markable self.now.index.now self.now.best.now marks.now node }
        ensures { result ≡ is_far self.now.index.now self.now.best.now self.now.from marks.now length node }
    {
        marks[node] == 0 || length < self.length_to(node)
    }

    // The first node, in rising order, that is marked and no farther than the length.
    fn first_near(&self, marks: &[u8], length: u32, nodes: usize) -> Option<usize>
        requires { AllMarkable self.now.index.now self.now.best.now marks.now nodes }
        ensures { FirstOf self.now.index.now self.now.best.now self.now.from marks.now length nodes result }
    {
        for node in 0..nodes {
            if !self.is_far(marks, length, node) {
                return Some(node);
            }
        }
        None
    }
}

// The nearest marked node within the tolerance, with its least length. A start that is marked is its own nearest.
pub fn nearest(ask: &Ask, marks: &[u8], best: &mut [u32], previous: &mut [u32]) -> Option<Entry>
    requires { AskedAt ask.now × Room ask.now.runs best.old previous.old × Marks ask.now marks.now }
    ensures { Nearby (bicycle (network_in ask.now)) (nodes_of (network_in ask.now)) ask.now.tolerance ask.now.from marks.now result }
{
    let from = ask.from;
    if marks[from] != 0 {
        return Some(Entry {
            node: from,
            length: 0,
        });
    }
    let search = Search {
        ask: *ask,
        goals: marks,
    };
    let Ok(met) = search.explore(best, previous) else {
        return None;
    };
    let length = label_in(met.key);
    let lengths = Lengths {
        index: ask.index,
        best,
        from,
    };
    let node = lengths.first_near(marks, length, ask.streets.net.nodes())?;
    Some(Entry { node, length })
}
