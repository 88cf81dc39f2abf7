// Test 8: bytes that Read could keep.
ghost use Rattle.std.specs.Prelude.{◌+◌, ◌*◌, ◌≤◌, ◌<◌, ◌≡◌, [], true, length, drop};
ghost use Rattle.frames.specs.Edition.{frame_bytes};
ghost use Rattle.frames.specs.Frame.{head_bytes};
ghost use Rattle.frames.specs.Steps.Sizes.{county_size, Alike, Limited};
ghost use Rattle.network.specs.Network.{is_network};
ghost use Rattle.network.specs.Steps.Corners.{IndexOf};
ghost use Rattle.network.specs.Steps.Taken.{Gathered};
ghost use Rattle.network.specs.Steps.Checks.{HeadFits, FewNodes, Awaits, AwaitsRuns, FramesIndexed, FramesChecked, Checked, SegmentChecked, is_county};

use crate::corners::enter_runs;
use crate::legs::{claim_legs, ends_of, no_legs};
use frames::decoded::head_of;
use frames::edition::{frame_bytes, is_newer, is_wide};
use frames::frame::is_framed;
use frames::ranges::{ends_ok, head_ok, street_by};
use frames::sizes::is_town;
use frames::{Head, fields, sizes};

// The bytes of a network with this head.
#[tactic(auto, using(frames::proofs::EditionLaws::frames_few))]
pub fn kept_bytes(head: Head) -> usize
    requires { Limited head }
    ensures { result ≡ head_bytes + frame_bytes head.edition * head.segments }
{
    fields::HEAD_BYTES + frame_bytes(head.edition) * head.segments
}

// One segment's frame, judged where it stands: it follows the rules, and its legs were free; then they are taken, and its runs entered in an index that is
// to be filled. What the street has is tested last, by a call: nothing of the ends has to be kept across it. This function is always inlined: one call more
// for each segment would cost the pass a seventh.
#[inline(always)]
#[tactic(auto, using(crate::proofs::FaultLaws::line_and, crate::proofs::CornerLaws::runs_room, frames::proofs::FrameLaws::end_limits, frames::proofs::EditionLaws::frame_least, frames::proofs::EditionLaws::alike_frames, frames::proofs::RangeLaws::alike_streets))]
fn take_segment<const INDEXED: bool, const EDITION: u8, const LARGE: bool>(
    f: &[u8],
    head: Head,
    s: usize,
    legs: &mut [u8],
    index: &mut [u16],
) -> bool
    requires { (length f.now ≡ frame_bytes head.edition) × HeadFits head legs.old × (s < head.segments)
        × (INDEXED ≡ true → head.nodes * 8 ≤ length index.old) × (Alike EDITION head.edition) }
    ensures { SegmentChecked INDEXED f.now head s legs.old legs.new index.old index.new result }
{
    if !is_framed(f, fields::SEGMENT_KIND) {
        return false;
    }
    if !ends_ok(f, head.nodes) {
        return false;
    }
    let ends = ends_of(f);
    if !claim_legs(ends, legs) {
        return false;
    }
    if INDEXED {
        enter_runs(ends, s, index);
    }
    street_by::<EDITION, LARGE>(f)
}

// The one pass over the segments, as code for one edition and for those that are alike, and for large networks or not: the frames after the head follow the
// rules, and no leg is taken twice; then the bytes have all used legs, and an index that is to be filled has all runs.
#[tactic(auto, using(frames::proofs::EditionLaws::alike_frames))]
fn frames_by<const INDEXED: bool, const EDITION: u8, const LARGE: bool>(
    net: &[u8],
    head: Head,
    legs: &mut [u8],
    index: &mut [u16],
) -> bool
    requires { (length net.now ≡ head_bytes + frame_bytes head.edition * head.segments) × Limited head
        × Gathered head.nodes [] legs.old × FramesIndexed INDEXED head.nodes [] index.old × (Alike EDITION head.edition) }
    ensures { FramesChecked INDEXED head (drop head_bytes net.now) legs.new index.new result }
{
    let size = frame_bytes(EDITION);
    for s in 0..head.segments {
        let at = fields::HEAD_BYTES + size * s;
        if !take_segment::<INDEXED, EDITION, LARGE>(&net[at..at + size], head, s, legs, index) {
            return false;
        }
    }
    true
}

// The same for the head's edition: a loop for each, so that none pays for what another has, and one more for a county.
#[tactic(auto, using(frames::proofs::EditionLaws::alike_first, frames::proofs::EditionLaws::alike_second, frames::proofs::EditionLaws::alike_third))]
fn frames_ok<const INDEXED: bool>(
    net: &[u8],
    head: Head,
    legs: &mut [u8],
    index: &mut [u16],
) -> bool
    requires { (length net.now ≡ head_bytes + frame_bytes head.edition * head.segments) × Limited head
        × Gathered head.nodes [] legs.old × FramesIndexed INDEXED head.nodes [] index.old }
    ensures { FramesChecked INDEXED head (drop head_bytes net.now) legs.new index.new result }
{
    if !is_newer(head.edition) {
        return frames_by::<INDEXED, 1, false>(net, head, legs, index);
    }
    if !is_wide(head.edition) {
        return frames_by::<INDEXED, 2, false>(net, head, legs, index);
    }
    if is_town(head.nodes, head.segments) {
        return frames_by::<INDEXED, 3, false>(net, head, legs, index);
    }
    frames_by::<INDEXED, 3, true>(net, head, legs, index)
}

// Whether the bytes are a network that Read could keep; then the bytes lent have its used legs, and an index that is to be filled has its runs.
#[tactic(auto, using(crate::proofs::FramesChecked::whole_test))]
fn is_network_in<const INDEXED: bool>(net: &[u8], legs: &mut [u8], index: &mut [u16]) -> bool
    requires { Awaits net.now legs.old × AwaitsRuns INDEXED net.now index.old }
    ensures checked { Checked net.now legs.new result }
    ensures indexed { INDEXED ≡ true → result ≡ true → IndexOf net.now index.new }
{
    if net.len() < fields::HEAD_BYTES {
        return false;
    }
    let first = &net[0..fields::HEAD_BYTES];
    if !(is_framed(first, fields::HEAD_KIND) & head_ok(first)) {
        return false;
    }
    let head = head_of(first);
    if net.len() != kept_bytes(head) {
        return false;
    }
    frames_ok::<INDEXED>(net, head, legs, index)
}

// The same for a call that searches nothing, and needs no index.
pub fn is_network(net: &[u8], legs: &mut [u8]) -> bool
    requires { Awaits net.now legs.old }
    ensures { Checked net.now legs.new result }
{
    is_network_in::<false>(net, legs, &mut [])
}

// The same for a search, which needs the index of runs. It is never inlined: the pass has no register to spare for what a caller holds.
#[inline(never)]
pub fn is_indexed_network(net: &[u8], legs: &mut [u8], index: &mut [u16]) -> bool
    requires { Awaits net.now legs.old × AwaitsRuns true net.now index.old }
    ensures checked { Checked net.now legs.new result }
    ensures indexed { result ≡ true → IndexOf net.now index.new }
{
    is_network_in::<true>(net, legs, index)
}

// Whether the bytes need a county's memory, by the counts that their head says.
#[tactic(auto, unfolding(crate::specs::Steps::Checks::is_county))]
pub fn is_county(net: &[u8]) -> bool
    ensures { result ≡ is_county net.now }
{
    if net.len() < fields::HEAD_BYTES {
        return false;
    }
    let first = &net[0..fields::HEAD_BYTES];
    if !head_ok(first) {
        return false;
    }
    let head = head_of(first);
    !is_town(head.nodes, head.segments)
}

// Whether the bytes are a network that Read could keep, tested in memory of its own for so many nodes.
#[tactic(auto, using(crate::proofs::SizeLaws::few_await))]
fn is_kept_in<const NODES: usize>(net: &[u8]) -> bool
    requires { (NODES ≤ county_size) × FewNodes NODES net.now }
    ensures { result ≡ is_network net.now }
{
    let mut legs = no_legs::<NODES>();
    is_network(net, &mut legs)
}

// The same in a county's memory. It is never inlined, so that a town takes no stack for a county.
#[inline(never)]
#[tactic(auto, using(crate::proofs::SizeLaws::county_heads))]
pub fn is_kept_in_county(net: &[u8]) -> bool
    ensures { result ≡ is_network net.now }
{
    is_kept_in::<{ sizes::COUNTY }>(net)
}

// The same in a town's memory, where the network is no larger.
#[tactic(auto, using(crate::proofs::SizeLaws::town_heads))]
pub fn is_kept(net: &[u8]) -> bool
    ensures { result ≡ is_network net.now }
{
    if is_county(net) {
        return is_kept_in_county(net);
    }
    is_kept_in::<{ sizes::TOWN }>(net)
}
