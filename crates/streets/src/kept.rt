// A kept network, and its streets: the network with the used legs of its nodes.
ghost use Rattle.std.specs.Prelude.{◌<◌, ◌≡◌, true, false, MatchOption};
ghost use Rattle.frames.specs.Steps.Sizes.{Extra};
ghost use Rattle.network.specs.Network.{edition_of, nodes_of, segments_of, is_network};
ghost use Rattle.network.specs.Steps.Corners.{IndexOf};
ghost use Rattle.network.specs.Steps.Checks.{Awaits, AwaitsRuns};
ghost use Rattle.streets.specs.Runs.{runs_of};
ghost use Rattle.streets.specs.Steps.Places.{FrameOf};
ghost use Rattle.streets.specs.UsedLegs.{LegsOf};

use frames::edition::{SEGMENT_BYTES, extra_of};
use frames::fields;
use frames::frame::{Frame, word_at};
use network::kept::{is_indexed_network, is_network};

// Bytes that Read could keep. So many bytes the lengths of its edition have beyond two: a search asks it for each frame that it reads.
#[derive(Clone, Copy)]
pub struct Network<'a> {
    pub bytes: &'a [u8],
    pub extra: usize,
    pub ghost kept: { is_network bytes.now ≡ true },
    pub ghost wide: { Extra (edition_of bytes.now) extra },
}

// A kept network with the used legs of its nodes, a byte for each.
#[derive(Clone, Copy)]
pub struct Streets<'a> {
    pub net: Network<'a>,
    pub legs: &'a [u8],
    pub ghost gathered: { LegsOf net.bytes.now legs.now },
}

#[tactic(auto, using(network::proofs::NetworkLaws::network_length, crate::proofs::EndLaws::frame_room, crate::proofs::EndLaws::segments_few))]
impl<'a> Network<'a> {
    // The network that the bytes are.
    pub fn of(bytes: &'a [u8]) -> Network<'a>
        requires { is_network bytes.now ≡ true }
        ensures { result.bytes.now ≡ bytes.now }
    {
        Network {
            bytes,
            extra: extra_of(bytes[fields::EDITION]),
        }
    }

    // How many nodes it has.
    pub fn nodes(&self) -> usize
        ensures { result ≡ nodes_of self.now.bytes.now }
    {
        word_at(self.bytes, fields::NODES)
    }

    // How many segments it has.
    pub fn segments(&self) -> usize
        ensures { result ≡ segments_of self.now.bytes.now }
    {
        word_at(self.bytes, fields::SEGMENTS)
    }

    // Two for each segment.
    pub fn runs(&self) -> usize
        ensures { result ≡ runs_of self.now.bytes.now }
    {
        2 * self.segments()
    }

    // The frame of a segment.
    pub fn frame_of(&self, segment: usize) -> Frame<'a>
        requires { segment < segments_of self.now.bytes.now }
        ensures { FrameOf self.now.bytes.now segment result }
    {
        let size = SEGMENT_BYTES + self.extra;
        let start = fields::HEAD_BYTES + size * segment;
        Frame {
            bytes: &self.bytes[start..start + size],
            edition: self.bytes[fields::EDITION],
            extra: self.extra,
        }
    }
}

#[tactic(auto, using(crate::proofs::LegsUsed::legs_of))]
impl<'a> Streets<'a> {
    // The streets of a network, if the bytes are one; its used legs are then in the bytes lent.
    pub fn of(net: &'a [u8], legs: &'a mut [u8]) -> Option<Streets<'a>>
        requires { Awaits net.now legs.old }
        ensures { MatchOption result (is_network net.now ≡ false) (λ streets. streets.net.bytes.now ≡ net.now) }
    {
        if !is_network(net, legs) {
            return None;
        }
        Some(Streets {
            net: Network::of(net),
            legs,
        })
    }

    // The same for a search: the index lent then has the network's runs.
    pub fn indexed(net: &'a [u8], legs: &'a mut [u8], index: &mut [u16]) -> Option<Streets<'a>>
        requires { Awaits net.now legs.old × AwaitsRuns true net.now index.old }
        ensures { MatchOption result (is_network net.now ≡ false) (λ streets. (streets.net.bytes.now ≡ net.now) × IndexOf net.now index.new) }
    {
        if !is_indexed_network(net, legs, index) {
            return None;
        }
        Some(Streets {
            net: Network::of(net),
            legs,
        })
    }
}
