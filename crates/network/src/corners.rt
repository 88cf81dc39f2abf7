// The index of runs, which searches fill: for each leg of each node, 0 while it is free, else 1 + the run that leaves by it.
ghost use Rattle.std.specs.Prelude.{◌/◌, ◌≡◌};
ghost use Rattle.network.specs.Steps.Corners.{NoCorners, run_leaving, with_runs, RunsRoom};

use crate::legs::Ends;
use frames::sizes;

// Eight legs for each node.
pub const TOWN_CORNERS: usize = 8 * sizes::TOWN;

pub const COUNTY_CORNERS: usize = 8 * sizes::COUNTY;

// An index with every leg free, of eight legs for each node.
pub fn free_corners<const CORNERS: usize>() -> [u16; CORNERS]
    ensures { NoCorners (CORNERS / 8) result }
{
    [0; CORNERS]
}

// The run that leaves by a leg, which this entry of an index tells; none where the leg is free.
pub fn run_leaving(entry: u16) -> Option<usize>
    ensures { result ≡ run_leaving entry }
{
    match entry {
        0 => None,
        next => Some(usize::from(next) - 1),
    }
}

// Enters the runs of segment s: 2s leaves by its A end, 2s + 1 by its B end.
pub fn enter_runs(ends: Ends, s: usize, index: &mut [u16])
    requires { RunsRoom ends s index.old }
    ensures { index.new ≡ with_runs index.old s ends }
{
    index[ends.node_a * 8 + ends.leg_a] = (s * 2 + 1) as u16;
    index[ends.node_b * 8 + ends.leg_b] = (s * 2 + 2) as u16;
}
