// The one exploration behind every question: goals are marked nodes, none of them, one or many, and a limit stands for the greatest length. Here are the
// memory of a search, a queue and a number for each node, and the tolerances that it goes through.
ghost use Rattle.std.specs.Prelude.{◌/◌, ◌≤◌};
ghost use Rattle.search_labels.specs.Steps.Labels.{Room};
ghost use Rattle.search_rounds.specs.Steps.Searches.{NoKeys, AllUnknown, Enough, Stopped, Meets};

use crate::search::Search;
use frames::sizes;
use frames::sizes::is_town;
use search_relaxing::Ask;

// Two elements of the queue for each of two runs of a segment.
const TOWN_KEYS: usize = 4 * sizes::TOWN;

const COUNTY_KEYS: usize = 4 * sizes::COUNTY;

// An empty queue, of two elements for each run.
fn no_keys<const KEYS: usize>() -> [u64; KEYS]
    requires { 2 ≤ KEYS }
    ensures { NoKeys (KEYS / 2) result }
{
    [0; KEYS]
}

// A 0 for each node: nothing is known of it, and it is no goal.
pub fn unknown<const NODES: usize>() -> [u8; NODES]
    ensures { AllUnknown NODES result }
{
    [0; NODES]
}

// What the searches met: the nearest run that arrives at a goal, by its key, and the tolerance at which it does.
#[derive(Clone, Copy)]
pub struct Met {
    pub key: u64,
    pub tolerance: u8,
}

impl Search<'_, '_> {
    // The search in memory of its own, for so many nodes and half as many runs as keys. It is never inlined: a county takes no stack for a town's search too.
    #[inline(never)]
    fn search_in<const KEYS: usize, const NODES: usize>(
        &self,
        best: &mut [u32],
        previous: &mut [u32],
    ) -> Result<u64, u64>
        requires { Room self.now.ask.runs best.old previous.old × Enough self.now.ask KEYS NODES }
        ensures { Stopped self.now.ask self.now.ask.tolerance self.now.goals.now best.new previous.new result }
    {
        let mut tree = no_keys::<KEYS>();
        let mut unfound = unknown::<NODES>();
        self.search(best, previous, &mut tree, &mut unfound)
    }

    // The same in a county's memory, which has room for every network. It is never inlined: a town takes no stack for a county.
    #[inline(never)]
    #[tactic(auto, using(network::proofs::NetworkLaws::nodes_most, network::proofs::NetworkLaws::segments_most, frames::proofs::EditionLaws::nodes_few, frames::proofs::EditionLaws::segments_few))]
    pub fn search_in_county(&self, best: &mut [u32], previous: &mut [u32]) -> Result<u64, u64>
        requires { Room self.now.ask.runs best.old previous.old }
        ensures { Stopped self.now.ask self.now.ask.tolerance self.now.goals.now best.new previous.new result }
    {
        self.search_in::<COUNTY_KEYS, { sizes::COUNTY }>(best, previous)
    }

    // The same at a tolerance, in a town's memory where that has room for the network, else in a county's.
    #[tactic(auto, unfolding(frames::specs::Steps::Sizes::is_town))]
    fn search_at(&self, tolerance: u8, best: &mut [u32], previous: &mut [u32]) -> Result<u64, u64>
        requires { Room self.now.ask.runs best.old previous.old }
        ensures { Stopped self.now.ask tolerance self.now.goals.now best.new previous.new result }
    {
        let ask = self.ask;
        let at = Search {
            ask: Ask {
                streets: ask.streets,
                index: ask.index,
                runs: ask.runs,
                least: ask.least,
                tolerance,
                from: ask.from,
                limit: ask.limit,
            },
            goals: self.goals,
        };
        if is_town(ask.streets.net.nodes(), ask.streets.net.segments()) {
            return at.search_in::<TOWN_KEYS, { sizes::TOWN }>(best, previous);
        }
        at.search_in_county(best, previous)
    }

    // Searches at the tolerances from `least` to the one that is asked, until one of them meets a goal. Where none does, the key at which the last of them
    // stopped is the error.
    pub fn explore(&self, best: &mut [u32], previous: &mut [u32]) -> Result<Met, u64>
        requires { Room self.now.ask.runs best.old previous.old × (self.now.ask.least ≤ self.now.ask.tolerance) }
        ensures { Meets self.now.ask self.now.goals.now best.new previous.new result }
    {
        // At least one tolerance is asked, so a search puts its own key here.
        let mut stopped = self.ask.limit;
        for tolerance in self.ask.least..=self.ask.tolerance {
            match self.search_at(tolerance, best, previous) {
                Ok(key) => return Ok(Met { key, tolerance }),
                Err(key) => stopped = key,
            }
        }
        Err(stopped)
    }
}
