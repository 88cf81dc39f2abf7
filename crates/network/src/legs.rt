// The used legs of each node as eight bits: bit k of its byte is set exactly when leg k is used.
ghost use Rattle.std.specs.Prelude.{◌^◌, ◌≡◌, ◌≤◌, ◌<◌, true, not, length};
ghost use Rattle.network.specs.LegBits.{is_set};
ghost use Rattle.frames.specs.Edition.{segment_bytes};
ghost use Rattle.network.specs.Steps.Taken.{NoLegs, Claimable, Claimed, ends_of, has_leg, with_leg};

use frames::fields;
use frames::frame::{byte_at, word_at};

// A byte for each node, with no leg used.
pub fn no_legs<const NODES: usize>() -> [u8; NODES]
    ensures { NoLegs NODES result }
{
    [0; NODES]
}

// The bit of each leg alone. It is looked up: that takes less time than shifting a 1 by the leg.
const BIT_OF: [u8; 8] = [1, 2, 4, 8, 16, 32, 64, 128];

fn bit_of(leg: usize) -> u8
    requires { leg < 8 }
    ensures { result ≡ 2 ^ leg }
{
    BIT_OF[leg]
}

// Bit `leg` is set.
#[tactic(auto, using(crate::proofs::TakenLaws::bit_test))]
pub fn is_set(bits: u8, leg: usize) -> bool
    requires { leg < 8 }
    ensures { result ≡ is_set bits leg }
{
    bits & bit_of(leg) != 0
}

// Takes a leg of a node, unless its bit is set already.
#[tactic(auto, unfolding(crate::specs::Steps::Taken::has_leg, crate::specs::Steps::Taken::with_leg))]
fn take_leg(node: usize, leg: usize, legs: &mut [u8]) -> bool
    requires { (node < length legs.old) × (leg < 8) }
    ensures was_free { result ≡ not (has_leg legs.old node leg) }
    ensures taken { result ≡ true → legs.new ≡ with_leg legs.old node leg }
{
    let bits = legs[node];
    if is_set(bits, leg) {
        return false;
    }
    legs[node] = bits | bit_of(leg);
    true
}

// The nodes and legs of a segment's two ends.
#[derive(Clone, Copy)]
pub struct Ends {
    pub node_a: usize,
    pub leg_a: usize,
    pub node_b: usize,
    pub leg_b: usize,
}

// They are read off the frame once: what stands behind a reference would be read again after each leg that is taken.
pub fn ends_of(f: &[u8]) -> Ends
    requires { segment_bytes ≤ length f.now }
    ensures { result ≡ ends_of f.now }
{
    Ends {
        node_a: word_at(f, fields::NODE_A),
        leg_a: byte_at(f, fields::LEG_A),
        node_b: word_at(f, fields::NODE_B),
        leg_b: byte_at(f, fields::LEG_B),
    }
}

// Takes the legs of both ends, A's first: where both stand at one leg, B's is taken already.
#[tactic(auto, unfolding(crate::specs::Steps::Taken::free_in))]
pub fn claim_legs(ends: Ends, legs: &mut [u8]) -> bool
    requires { Claimable ends legs.old }
    ensures { Claimed ends legs.old legs.new result }
{
    take_leg(ends.node_a, ends.leg_a, legs) && take_leg(ends.node_b, ends.leg_b, legs)
}
