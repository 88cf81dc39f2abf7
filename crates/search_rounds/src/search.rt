// The rounds of a search, in memory that is lent.
ghost use Rattle.std.specs.Prelude.{◌≡◌, ◌<◌};
ghost use Rattle.search_labels.specs.Steps.Labels.{Room};
ghost use Rattle.search_relaxing.specs.Steps.Counted.{network_in, goal_at};
ghost use Rattle.search_rounds.specs.Steps.Searches.{Sought, Unused, Stopped};

use crate::begin::begin;
use crate::settle::settle;
use queue::least;
use search_labels::run_in;
use search_relaxing::Ask;
use search_relaxing::relax::NOTHING;

// A search: what is asked, and the goals, a byte for each node, not 0 at a goal.
#[derive(Clone, Copy)]
pub struct Search<'a, 'b> {
    pub ask: Ask<'a>,
    pub goals: &'b [u8],
    pub ghost sought: { Sought ask goals.now },
}

impl Search<'_, '_> {
    // The run arrives at a goal.
    #[tactic(auto, unfolding(search_relaxing::specs::Steps::Counted::goal_at, routes::specs::Reach::is_marked))]
    fn is_goal(&self, run: usize) -> bool
        requires { run < self.now.ask.runs }
        ensures { result ≡ goal_at (network_in self.now.ask) self.now.goals.now run }
    {
        let node = self.ask.streets.net.finish_of(run);
        self.goals[node] != 0
    }

    // Settles runs in the order of their keys until the next one arrives at a goal, and gives its key; or until its key is not below the limit, and then that
    // key is the error, TOP where no labelled run is left. It asks a copy of its own: what stands behind a reference would be read again after each label that
    // is written.
    pub fn search(
        &self,
        best: &mut [u32],
        previous: &mut [u32],
        tree: &mut [u64],
        unfound: &mut [u8],
    ) -> Result<u64, u64>
        requires { Room self.now.ask.runs best.old previous.old × Unused self.now.ask tree.old unfound.old }
        ensures { Stopped self.now.ask self.now.ask.tolerance self.now.goals.now best.new previous.new result }
    {
        let search = *self;
        let ask = &search.ask;
        begin(ask, best, previous, tree);
        unfound[ask.from] = NOTHING;
        let mut key = least(ask.runs, tree);
        while key < ask.limit {
            if search.is_goal(run_in(key)) {
                return Ok(key);
            }
            key = settle(ask, key, best, previous, tree, unfound);
        }
        Err(key)
    }
}
