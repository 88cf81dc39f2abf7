// How far a node is: the least label of the runs that arrive there. They arrive by its eight legs, each the opposite of the run that leaves by the leg.
ghost use Rattle.std.specs.Prelude.{◌≡◌};
ghost use Rattle.search_reach.specs.Steps.Arrivals.{label_behind, least_arrival, length_to, Looked, LookedAt};

use network::corners::run_leaving;
use search_labels::NONE;

// The label of the run that arrives by a leg, whose entry of the index this is; NONE where the leg is free.
#[tactic(auto, unfolding(crate::specs::Steps::Arrivals::label_behind))]
fn label_behind(entry: u16, best: &[u32]) -> u32
    requires { Looked entry best.now }
    ensures { result ≡ label_behind best.now entry }
{
    run_leaving(entry).map_or(NONE, |leaving| best[leaving ^ 1])
}

// Lengths from a start, as the labels of a search have them: the index of the runs, the label of each run, and the start.
#[derive(Clone, Copy)]
pub struct Lengths<'a, 'b> {
    pub index: &'a [u16],
    pub best: &'b [u32],
    pub from: usize,
}

impl Lengths<'_, '_> {
    // The least label of the runs that arrive at a node; NONE where none of them has one.
    #[tactic(auto, using(crate::proofs::LabelsBehind::least_none, crate::proofs::LabelsBehind::least_more))]
    fn least_arrival(&self, node: usize) -> u32
        requires { LookedAt self.now.index.now self.now.best.now node }
        ensures { result ≡ least_arrival self.now.index.now self.now.best.now node }
    {
        let place = node * 8;
        let mut least = NONE;
        for entry in &self.index[place..place + 8] {
            least = label_behind(*entry, self.best).min(least);
        }
        least
    }

    // The length to a node: the start itself is 0 away.
    #[tactic(auto, using(std::proofs::lemmas::Bool::Decides::nat_tests), unfolding(crate::specs::Steps::Arrivals::length_to))]
    pub fn length_to(&self, node: usize) -> u32
        requires { LookedAt self.now.index.now self.now.best.now node }
        ensures { result ≡ length_to self.now.index.now self.now.best.now self.now.from node }
    {
        if node == self.from {
            return 0;
        }
        self.least_arrival(node)
    }
}
