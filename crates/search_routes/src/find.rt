// A shortest route within a tolerance, from one node to another.
ghost use Rattle.std.specs.Prelude.{◌≡◌};
ghost use Rattle.streets.specs.Bicycle.{bicycle};
ghost use Rattle.search_relaxing.specs.Steps.Counted.{network_in};
ghost use Rattle.search_routes.specs.Steps.Answered.{Question, Rooms, Unmarked, staying, Answered};

use crate::trace::{count_runs, fill, route_level};
use routes::{Found, LeastRoute};
use search_labels::{label_in, run_in};
use search_relaxing::Ask;
use search_rounds::search::Search;

// From a node to itself the empty route is within every tolerance.
fn stay(tolerance: u8) -> LeastRoute
    ensures { result ≡ staying tolerance }
{
    let route = Found {
        count: 0,
        length: 0,
        level: 1,
    };
    LeastRoute { route, tolerance }
}

// Writes a shortest route within the least tolerance that has one, of those asked, into the buffer from the place on, where there is one. It is the
// exploration with one goal, which is marked among goals that are none yet.
#[tactic(auto, using(crate::proofs::Stopping::stay_written))]
pub fn find(
    ask: &Ask,
    to: usize,
    best: &mut [u32],
    previous: &mut [u32],
    buffer: &mut [u16],
    place: usize,
    goals: &mut [u8],
) -> Option<LeastRoute>
    requires { Question ask.now to × Rooms ask.now.runs best.old previous.old buffer.old place × Unmarked ask.now goals.old }
    ensures { Answered (bicycle (network_in ask.now)) ask.now.least ask.now.tolerance ask.now.from to place
        buffer.old buffer.new result }
{
    if ask.from == to {
        return Some(stay(ask.least));
    }
    goals[to] = 1;
    let search = Search { ask: *ask, goals };
    let Ok(met) = search.explore(best, previous) else {
        return None;
    };
    let key = met.key;
    let last = run_in(key);
    let count = count_runs(previous, ask.runs, last);
    let level = route_level(ask, previous, last, count);
    fill(previous, ask.runs, last, count, &mut buffer[place..]);
    let route = Found {
        count,
        length: label_in(key),
        level,
    };
    Some(LeastRoute {
        route,
        tolerance: met.tolerance,
    })
}
