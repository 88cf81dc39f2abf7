// The two moves: up, from edition 02 to 03, and back.
ghost use Rattle.std.specs.Prelude.{◌+◌, ◌*◌, ◌≡◌, length, drop, true};
ghost use Rattle.frames.specs.Edition.{frame_bytes};
ghost use Rattle.frames.specs.Frame.{head_bytes};
ghost use Rattle.frames.specs.Decoded.{head_fields};
ghost use Rattle.network.specs.Network.{head_of, edition_of, is_network};
ghost use Rattle.moves.specs.Moving.{lengths_ok, within_limits, MoveDid};

use crate::moved::write_moved;
use frames::decoded::head_of;
use frames::edition::{extra_of, frame_bytes, most_feet, most_nodes, most_segments};
use frames::frame::Frame;
use frames::{Head, fields};
use network::kept::{is_kept, kept_bytes};
use refusals::Refusal;

// No length of a network of one edition is above the limit of another.
#[tactic(auto, using(crate::proofs::LengthLaws::part_fits, crate::proofs::LengthLaws::length_passes, crate::proofs::LengthLaws::length_fails, crate::proofs::LengthLaws::no_length_left))]
fn lengths_ok<const FROM: u8, const TO: u8>(net: &[u8], segments: usize) -> bool
    requires { length net.now ≡ head_bytes + frame_bytes FROM * segments }
    ensures { result ≡ lengths_ok FROM TO segments (drop head_bytes net.now) }
{
    let size = frame_bytes(FROM);
    for s in 0..segments {
        let at = fields::HEAD_BYTES + size * s;
        let frame = Frame {
            bytes: &net[at..at + size],
            edition: FROM,
            extra: extra_of(FROM),
        };
        if frame.feet() > most_feet(TO) {
            return false;
        }
    }
    true
}

// No count and no length of a network of one edition is above the limits of another.
#[tactic(auto, using(network::proofs::NetworkLaws::network_length), unfolding(crate::specs::Moving::within_limits))]
fn within_limits<const FROM: u8, const TO: u8>(net: &[u8], head: Head) -> bool
    requires { (is_network net.now ≡ true) × (edition_of net.now ≡ FROM) × (head ≡ head_fields (head_of net.now)) }
    ensures { result ≡ within_limits TO net.now }
{
    head.nodes <= most_nodes(TO)
        && head.segments <= most_segments(TO)
        && lengths_ok::<FROM, TO>(net, head.segments)
}

// The move of a network of one edition to another. Nothing is written before every test has passed.
#[tactic(auto, using(crate::proofs::MovingLaws::moved_long, network::proofs::NetworkLaws::network_length, network::proofs::NetworkLaws::passed))]
fn move_to<const FROM: u8, const TO: u8>(net: &[u8], output: &mut [u8]) -> Result<usize, Refusal>
    ensures { MoveDid FROM TO net.now output.old output.new result }
{
    if !is_kept(net) {
        return Err(Refusal::NotANetwork);
    }
    let head = head_of(&net[..fields::HEAD_BYTES]);
    if head.edition != FROM {
        return Err(Refusal::NoSuchMove);
    }
    if !within_limits::<FROM, TO>(net, head) {
        return Err(Refusal::AboveLimits);
    }
    let size = kept_bytes(Head {
        edition: TO,
        ..head
    });
    if output.len() < size {
        return Err(Refusal::TooShortForMove);
    }
    write_moved::<FROM, TO>(net, head.segments, output);
    Ok(size)
}

// A network of edition 02 as one of edition 03, written at the front of the output; the number of its bytes.
pub fn move_up(net: &[u8], output: &mut [u8]) -> Result<usize, Refusal>
    ensures { MoveDid 2 3 net.now output.old output.new result }
{
    move_to::<2, 3>(net, output)
}

// A network of edition 03 as one of edition 02, written at the front of the output; the number of its bytes.
pub fn move_back(net: &[u8], output: &mut [u8]) -> Result<usize, Refusal>
    ensures { MoveDid 3 2 net.now output.old output.new result }
{
    move_to::<3, 2>(net, output)
}
