// The beginning of a search: the runs that leave the start are labelled with their own feet and queued.
ghost use Rattle.queue.specs.Steps.Queue.{Empty};
ghost use Rattle.search_labels.specs.Steps.Labels.{Room};
ghost use Rattle.search_rounds.specs.Steps.Searches.{Seedable, Seeds, Begins};

use network::corners::run_leaving;
use search_labels::{NONE, clear_labels, write_label};
use search_relaxing::Ask;
use search_relaxing::usable::is_usable;

// Labels the run behind an entry of the index, where there is one and it is usable.
#[tactic(auto, using(network::proofs::NetworkLaws::segments_most, frames::proofs::EditionLaws::segments_few))]
fn begin_at(ask: &Ask, entry: u16, best: &mut [u32], previous: &mut [u32], tree: &mut [u64])
    requires { Seedable ask.now entry best.old previous.old tree.old }
    ensures { Seeds ask.now entry best.old previous.old tree.old
        best.new previous.new tree.new }
{
    let Some(run) = run_leaving(entry) else {
        return;
    };
    if is_usable(&ask.streets.net, ask.tolerance, run) {
        let label = ask.streets.net.feet_of(run) as u32;
        write_label(ask.runs, run, label, NONE, best, previous, tree);
    }
}

// Takes all labels away and labels the usable runs that leave the start: they stand at its eight entries of the index.
pub fn begin(ask: &Ask, best: &mut [u32], previous: &mut [u32], tree: &mut [u64])
    requires { Room ask.now.runs best.old previous.old × Empty tree.old ask.now.runs }
    ensures { Begins ask.now best.new previous.new tree.new }
{
    clear_labels(ask.runs, best);
    let first = ask.from * 8;
    for entry in &ask.index[first..first + 8] {
        begin_at(ask, *entry, best, previous, tree);
    }
}
