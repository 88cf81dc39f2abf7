// The tests that several calls make of what they are asked, each with its refusal.
ghost use Rattle.std.specs.Prelude.{◌≡◌, true, ltb, leb, ⊤};
ghost use Rattle.refusals.specs.declared.Refusal.TheVariants.{NoSuchNode, NoSuchTolerance, NoRoom, TooFewEntries};
ghost use Rattle.frames.specs.Ranges.{within};
ghost use Rattle.network.specs.Steps.Checks.{Awaits, AwaitsRuns};
ghost use Rattle.splicereel.specs.Finding.{fits};
ghost use Rattle.splicereel.specs.Steps.Calls.{Tested, NetworkTested, NetworkIndexed, AskTested, scratch_fits};

use crate::route::has_room;
use queue::TOP;
use refusals::Refusal;
use search_relaxing::Ask;
use streets::kept::Streets;

// 8: the bytes are a network.
pub fn streets_of<'a>(net: &'a [u8], legs: &'a mut [u8]) -> Result<Streets<'a>, Refusal>
    requires { Awaits net.now legs.old }
    ensures { NetworkTested net.now result }
{
    Streets::of(net, legs).ok_or(Refusal::NotANetwork)
}

// The same for a search: the runs of the network are then in the index.
pub fn indexed_streets<'a>(
    net: &'a [u8],
    legs: &'a mut [u8],
    index: &mut [u16],
) -> Result<Streets<'a>, Refusal>
    requires { Awaits net.now legs.old × AwaitsRuns true net.now index.old }
    ensures { NetworkIndexed net.now index.new result }
{
    Streets::indexed(net, legs, index).ok_or(Refusal::NotANetwork)
}

// 9: the node is one of the network's.
pub fn check_node(nodes: usize, node: usize) -> Result<(), Refusal>
    ensures { Tested (ltb node nodes) NoSuchNode (λ _. ⊤) result }
{
    if node < nodes {
        return Ok(());
    }
    Err(Refusal::NoSuchNode)
}

// 10: the tolerance is from 1 to 4.
pub fn tolerance_of(tolerance: usize) -> Result<u8, Refusal>
    ensures { Tested (within 1 4 tolerance) NoSuchTolerance (λ t. t ≡ tolerance) result }
{
    match tolerance {
        1..=4 => Ok(tolerance as u8),
        _ => Err(Refusal::NoSuchTolerance),
    }
}

// Each scratch slice has a number for each run.
pub fn has_scratch(runs: usize, best: usize, previous: usize) -> bool
    ensures { result ≡ scratch_fits runs best previous }
{
    (runs <= best) & (runs <= previous)
}

// 11: each has.
pub fn check_scratch(runs: usize, best: usize, previous: usize) -> Result<(), Refusal>
    ensures { Tested (scratch_fits runs best previous) NoRoom (λ _. ⊤) result }
{
    if has_scratch(runs, best, previous) {
        return Ok(());
    }
    Err(Refusal::NoRoom)
}

// 11: so has the buffer from the place on.
pub fn check_room(
    runs: usize,
    best: usize,
    previous: usize,
    buffer: usize,
    place: usize,
) -> Result<(), Refusal>
    ensures { Tested (fits runs best previous buffer place) NoRoom (λ _. ⊤) result }
{
    if has_room(runs, best, previous, buffer, place) {
        return Ok(());
    }
    Err(Refusal::NoRoom)
}

// 15: so many numbers are wanted of a list or of marks.
pub fn check_entries(wanted: usize, entries: usize) -> Result<(), Refusal>
    ensures { Tested (leb wanted entries) TooFewEntries (λ _. ⊤) result }
{
    if wanted <= entries {
        return Ok(());
    }
    Err(Refusal::TooFewEntries)
}

// The tests of Reach map and Nearest up to 11, and what the search is then asked.
#[tactic(auto, unfolding(crate::specs::Finding::reach_refusal))]
pub fn ask_from<'a>(
    net: &'a [u8],
    legs: &'a mut [u8],
    index: &'a mut [u16],
    from: usize,
    tolerance: usize,
    best: &[u32],
    previous: &[u32],
) -> Result<Ask<'a>, Refusal>
    requires { Awaits net.now legs.old × AwaitsRuns true net.now index.old }
    ensures { AskTested net.now from tolerance best.now previous.now result }
{
    let streets = indexed_streets(net, legs, index)?;
    let runs = streets.net.runs();
    check_node(streets.net.nodes(), from)?;
    let tolerance = tolerance_of(tolerance)?;
    check_scratch(runs, best.len(), previous.len())?;
    Ok(Ask {
        streets,
        index,
        runs,
        least: tolerance,
        tolerance,
        from,
        limit: TOP,
    })
}
