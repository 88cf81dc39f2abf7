// What a search at a tolerance may ride.
ghost use Rattle.std.specs.Prelude.{◌<◌, ◌≡◌};
ghost use Rattle.streets.specs.Runs.{runs_of};
ghost use Rattle.streets.specs.Bicycle.{bicycle};
ghost use Rattle.search_relaxing.specs.Steps.Counted.{usable};

use streets::kept::Network;

// The run is open and not above the tolerance.
#[tactic(auto, unfolding(crate::specs::Steps::Counted::usable))]
pub fn is_usable(net: &Network, tolerance: u8, run: usize) -> bool
    requires { run < runs_of net.now.bytes.now }
    ensures { result ≡ usable (bicycle net.now.bytes.now) tolerance run }
{
    net.is_open(run) && net.run_level(run) <= tolerance
}
