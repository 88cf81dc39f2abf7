// Relaxing over the streets of a kept network: which runs get a label by way of a run that is settled. What functions promise is in specs/Steps/.
#![tactic(auto)]

ghost use Rattle.std.specs.Prelude.{◌<◌, ◌≡◌};
ghost use Rattle.network.specs.Network.{nodes_of};
ghost use Rattle.network.specs.Steps.Corners.{IndexOf};
ghost use Rattle.streets.specs.Runs.{runs_of};

use streets::kept::Streets;

pub mod relax;
pub mod usable;

// What a search is asked: on which streets, with which index of their runs, how many runs, the least tolerance to try and the greatest, the node that it
// begins at, and the key from which on it settles no run.
#[derive(Clone, Copy)]
pub struct Ask<'a> {
    pub streets: Streets<'a>,
    pub index: &'a [u16],
    pub runs: usize,
    pub least: u8,
    pub tolerance: u8,
    pub from: usize,
    pub limit: u64,
    pub ghost indexed: { IndexOf streets.net.bytes.now index.now },
    pub ghost counted: { runs ≡ runs_of streets.net.bytes.now },
    pub ghost from_node: { from < nodes_of streets.net.bytes.now },
}
