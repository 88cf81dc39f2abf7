// The route read off the labels: the chain of `previous`, from its last run backwards.
ghost use Rattle.std.specs.Prelude.{◌≡◌, [], ◌≤◌, ◌<◌, length, drop};
ghost use Rattle.lists.specs.Lists.{at};
ghost use Rattle.routes.specs.Steps.Labels.{chain};
ghost use Rattle.routes.specs.Routes.{level_of};
ghost use Rattle.streets.specs.Bicycle.{bicycle, movement_level};
ghost use Rattle.search_relaxing.specs.Steps.Counted.{most_runs, network_in};
ghost use Rattle.search_routes.specs.Steps.Trace.{Traced, Ends, Fillable, Levellable};

use search_labels::NONE;
use search_relaxing::Ask;
use streets::movements::level_onto;

// The number of runs in the chain.
#[tactic(auto, using(crate::proofs::Tracing::counted_more))]
pub fn count_runs(previous: &[u32], n: usize, last: usize) -> usize
    requires { (n ≤ most_runs) × (n ≤ length previous.now) × Ends n (at previous.now) last }
    ensures { Traced n (at previous.now) last result }
{
    let mut count = 1;
    let mut before = previous[last];
    while before < NONE {
        before = previous[before as usize];
        count += 1;
    }
    count
}

// Writes the chain at the front of the tail.
#[tactic(auto, using(crate::proofs::Tracing::filled_none))]
pub fn fill(previous: &[u32], n: usize, last: usize, count: usize, tail: &mut [u16])
    requires { Fillable n previous.now last count tail.old }
    ensures { tail.new ≡ chain (at previous.now) count last (drop count tail.old) }
{
    let mut run = last;
    for place in (0..count).rev() {
        tail[place] = run as u16;
        run = previous[run] as usize;
    }
}

// The level of the movement from a run onto the next.
#[tactic(auto, using(streets::proofs::MovementLaws::level_of_movement))]
fn movement_level(ask: &Ask, run: usize, next: usize) -> u8
    requires { (run < ask.now.runs) × (next < ask.now.runs) }
    ensures { result ≡ movement_level (network_in ask.now) run next }
{
    let streets = &ask.streets;
    level_onto(streets.arrival_of(run), streets.net.leaving_leg(next))
}

// The level of the chain.
#[tactic(auto, using(crate::proofs::Levels::levelled_one))]
pub fn route_level(ask: &Ask, previous: &[u32], last: usize, count: usize) -> u8
    requires { Levellable ask.now previous.now last count }
    ensures { result ≡ level_of (bicycle (network_in ask.now)) (chain (at previous.now) count last []) }
{
    let mut level = ask.streets.net.run_level(last);
    let mut next = last;
    for _ in 1..count {
        let run = previous[next] as usize;
        let onto = movement_level(ask, run, next).max(level);
        level = ask.streets.net.run_level(run).max(onto);
        next = run;
    }
    level
}
