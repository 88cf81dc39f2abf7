// Writing a kept network as another edition has it.
ghost use Rattle.std.specs.Prelude.{◌+◌, ◌*◌, ◌≤◌, ◌≡◌, ◌++◌, length, drop};
ghost use Rattle.frames.specs.Edition.{frame_bytes};
ghost use Rattle.frames.specs.Frame.{head_bytes};
ghost use Rattle.network.specs.Network.{edition_of, segments_of};
ghost use Rattle.moves.specs.Moved.{head_in, frame_in, moved};

use frames::edition::{extra_of, frame_bytes};
use frames::fields;

// The head as an edition has it: the check takes up what the edition's byte has changed by.
#[tactic(auto, using(crate::proofs::HeadLaws::head_written))]
fn write_head(h: &[u8], edition: u8, out: &mut [u8])
    requires { (head_bytes ≤ length h.now) × (length out.old ≡ head_bytes) }
    ensures { out.new ≡ head_in edition h.now }
{
    let check = h[fields::HEAD_CHECK]
        .wrapping_add(h[fields::EDITION])
        .wrapping_sub(edition);
    out.copy_from_slice(&h[..fields::HEAD_BYTES]);
    out[fields::EDITION] = edition;
    out[fields::HEAD_CHECK] = check;
}

// Copies so many bytes by way of a local array, so that the compiler need not ask whether the two slices overlap.
#[inline(always)]
fn copy_piece<const N: usize>(from: &[u8], to: &mut [u8])
    requires { (length from.now ≡ N) × (length to.old ≡ N) }
    ensures { to.new ≡ from.now }
{
    let mut piece = [0u8; N];
    piece.copy_from_slice(from);
    to.copy_from_slice(&piece);
}

// Copies from N bytes to twice as many: the first N and the last N, which may overlap. So a length that is no power of two takes two steps.
#[inline(always)]
#[tactic(auto, using(crate::proofs::PieceLaws::pieces_join))]
fn copy<const N: usize>(from: &[u8], to: &mut [u8])
    requires { (N ≤ length from.now) × (length from.now ≤ N + N) × (length to.old ≡ length from.now) }
    ensures { to.new ≡ from.now }
{
    let last = from.len() - N;
    copy_piece::<N>(&from[..N], &mut to[..N]);
    copy_piece::<N>(&from[last..], &mut to[last..]);
}

// A segment's frame of one edition as another has it: the 7 bytes before the length, its width, and the 23 from its last two on.
#[tactic(auto, using(frames::proofs::EditionLaws::frame_least, frames::proofs::EditionLaws::frame_extra), unfolding(crate::specs::Moved::frame_in))]
fn write_frame<const FROM: u8, const TO: u8>(f: &[u8], out: &mut [u8])
    requires { (length f.now ≡ frame_bytes FROM) × (length out.old ≡ frame_bytes TO) }
    ensures { out.new ≡ frame_in FROM TO f.now }
{
    let (front, rest) = out.split_at_mut(fields::FEET);
    let (zeros, back) = rest.split_at_mut(extra_of(TO));
    copy::<4>(&f[..fields::FEET], front);
    zeros.fill(0);
    copy::<16>(&f[fields::FEET + extra_of(FROM)..], back);
}

// A whole network of one edition, as another has it, at the front of an output with room.
pub fn write_moved<const FROM: u8, const TO: u8>(net: &[u8], segments: usize, output: &mut [u8])
    requires { (length net.now ≡ head_bytes + frame_bytes FROM * segments) × (head_bytes + frame_bytes TO * segments ≤ length output.old)
        × (edition_of net.now ≡ FROM) × (segments_of net.now ≡ segments) }
    ensures { output.new ≡ moved TO net.now ++ drop (head_bytes + frame_bytes TO * segments) output.old }
{
    write_head(
        &net[..fields::HEAD_BYTES],
        TO,
        &mut output[..fields::HEAD_BYTES],
    );
    let (from, to) = (frame_bytes(FROM), frame_bytes(TO));
    for s in 0..segments {
        let at = fields::HEAD_BYTES + from * s;
        let out = fields::HEAD_BYTES + to * s;
        write_frame::<FROM, TO>(&net[at..at + from], &mut output[out..out + to]);
    }
}
