// Labels over any graph of runs. `best` has for each run the feet from the start to the run's end, and `previous` the run before it; NONE where there is
// none. A run that has a label is queued under a key, in which label and run are one number. No byte of a network and no street is known here.
#![tactic(auto)]

ghost use Rattle.std.specs.Prelude.{◌≡◌, ◌≤◌, ◌<◌, length};
ghost use Rattle.queue.specs.Steps.Queue.{top};
ghost use Rattle.search_labels.specs.Steps.Keys.{span, label_key, label_in, run_in};
ghost use Rattle.search_labels.specs.Steps.Labels.{Cleared, Labellable, LabelWritten};

use queue::put;

// No label, and no run before.
pub const NONE: u32 = u32::MAX;

// A run's key in the queue: first by label, then by its number. SPAN is above every run's number.
const SPAN: u64 = 65536;

pub fn key_of(label: u32, run: usize) -> u64
    requires { run < span }
    ensures { result ≡ label_key label run }
{
    (label as u64) * SPAN + (run as u64)
}

// The run of a key.
pub fn run_in(key: u64) -> usize
    ensures { result ≡ run_in key }
{
    (key % SPAN) as usize
}

// The label of a key.
pub fn label_in(key: u64) -> u32
    requires { key ≤ top }
    ensures { result ≡ label_in key }
{
    (key / SPAN) as u32
}

// Takes the labels of n runs away. The run before is only asked of a run that has a label.
pub fn clear_labels(n: usize, best: &mut [u32])
    requires { n ≤ length best.old }
    ensures { Cleared best.new n }
{
    best[..n].fill(NONE);
}

// Gives a run its label and the run before it, and queues it. It must not be queued yet with a lesser key.
pub fn write_label(
    n: usize,
    run: usize,
    label: u32,
    before: u32,
    best: &mut [u32],
    previous: &mut [u32],
    tree: &mut [u64],
)
    requires { Labellable n run label best.old previous.old tree.old }
    ensures { LabelWritten n run label before best.old previous.old tree.old
        best.new previous.new tree.new }
{
    best[run] = label;
    previous[run] = before;
    put(n, run, key_of(label, run), tree);
}
