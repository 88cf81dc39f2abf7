// Settling a run: it leaves the queue, and the edges from it are relaxed.
ghost use Rattle.search_relaxing.specs.Steps.Counted.{network_in};
ghost use Rattle.search_relaxing.specs.Steps.Unfound.{Unfound};
ghost use Rattle.search_rounds.specs.Steps.Searches.{DueNext, Settles};

use queue::{least, remove};
use search_labels::{label_in, run_in};
use search_relaxing::Ask;
use search_relaxing::relax::{Reached, relax};

// Settles the run with the least key, and gives the next key.
pub fn settle(
    ask: &Ask,
    key: u64,
    best: &mut [u32],
    previous: &mut [u32],
    tree: &mut [u64],
    unfound: &mut [u8],
) -> u64
    requires { DueNext ask.now key best.old previous.old tree.old unfound.old
        × Unfound (network_in ask.now) ask.now.tolerance ask.now.runs best.old unfound.old }
    ensures { Settles ask.now key best.old previous.old unfound.old
        best.new previous.new tree.new unfound.new result }
{
    let run = run_in(key);
    let label = label_in(key);
    remove(ask.runs, run, tree);
    let here = Reached {
        run,
        label,
        node: ask.streets.net.finish_of(run),
        leg: ask.streets.net.arrival_leg(run),
    };
    relax(ask, here, best, previous, tree, unfound);
    least(ask.runs, tree)
}
