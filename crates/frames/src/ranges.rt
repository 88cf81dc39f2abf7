// The ranges and rules of a head's and a segment's fields.
ghost use Rattle.std.specs.Prelude.{◌+◌, ◌≤◌, ◌<◌, ◌≡◌, length};
ghost use Rattle.frames.specs.Edition.{segment_bytes, frame_bytes, is_newer};
ghost use Rattle.frames.specs.Frame.{head_bytes};
ghost use Rattle.frames.specs.Ranges.{within, head_ok, ends_ok, form_ok, crossing_ok, no_lane, turn_lane_ok, approach_ok, street_ok};

use crate::edition::{
    MOST_TURN_FEET, crosses_nothing, edition_ok, extra_of, is_newer, is_wide, last_control,
    marks_ok, most_feet, most_nodes, most_segments,
};
use crate::fields;
use crate::frame::{Frame, word_at};

// Edition, nodes and segments of a head.
#[tactic(auto, unfolding(crate::specs::Ranges::head_ok))]
pub fn head_ok(h: &[u8]) -> bool
    requires { head_bytes ≤ length h.now }
    ensures { result ≡ head_ok h.now }
{
    let e = h[fields::EDITION];
    let nodes = word_at(h, fields::NODES);
    edition_ok(e)
        & (1..=most_nodes(e)).contains(&nodes)
        & (word_at(h, fields::SEGMENTS) <= most_segments(e))
}

// Both ends stand at a node below n, on a leg of it.
#[tactic(auto, unfolding(crate::specs::Ranges::ends_ok))]
pub fn ends_ok(f: &[u8], n: usize) -> bool
    requires { segment_bytes ≤ length f.now }
    ensures { result ≡ ends_ok n f.now }
{
    (word_at(f, fields::NODE_A) < n)
        & (f[fields::LEG_A] <= 7)
        & (word_at(f, fields::NODE_B) < n)
        & (f[fields::LEG_B] <= 7)
}

// The least and the most that the lanes and the speed crossed may be, for each control.
const LEAST_LANES: [u8; 6] = [0, 0, 1, 1, 1, 0];

const MOST_LANES: [u8; 6] = [0, 0, 12, 12, 12, 0];

const LEAST_SPEED: [u8; 6] = [0, 0, 5, 5, 5, 0];

const MOST_SPEED: [u8; 6] = [0, 0, 85, 85, 85, 0];

// The number is from the least to the most.
fn is_within(least: u8, most: u8, x: u8) -> bool
    ensures { result ≡ within least most x }
{
    (least <= x) & (x <= most)
}

// Whether kind, length and turning speed of the turn lane of the approach at place i are all 0: one look at four bytes.
fn has_no_lane(f: &[u8], i: usize) -> bool
    requires { i + 6 < length f.now }
    ensures { result ≡ no_lane f.now i }
{
    let at = i + fields::TURN_KIND;
    u32::from_be_bytes([f[at], f[at + 1], f[at + 2], f[at + 3]]) == 0
}

impl Frame<'_> {
    // Lanes, speed, reach and marks are those that the form may have.
    #[tactic(auto, using(crate::proofs::RangeLaws::contains_within, crate::proofs::RangeLaws::other_form), unfolding(crate::specs::Ranges::form_ok))]
    fn form_ok(&self) -> bool
        ensures { result ≡ form_ok (is_newer self.now.edition) self.now.edition self.now.bytes.now }
    {
        let f = self.bytes;
        let x = self.extra;
        let form = f[x + fields::FORM];
        let lanes = f[x + fields::LANES];
        let speed = f[x + fields::SPEED];
        let reach = f[x + fields::REACH];
        let marks = f[x + fields::MARKS];
        if form == 3 {
            return (lanes == 0) & (speed == 0) & (reach == 0) & (marks == 0);
        }
        (form <= 2)
            & (1..=12).contains(&lanes)
            & (5..=85).contains(&speed)
            & (reach <= 60)
            & marks_ok(is_newer(self.edition), marks)
            & ((1 <= form) | (reach == 0))
    }

    // What the approach at place i of the frame crosses.
    #[tactic(auto, using(crate::proofs::EditionLaws::crosses_or_not, crate::proofs::RangeLaws::contains_within), unfolding(crate::specs::Ranges::crossing_ok))]
    fn crossing_ok(&self, i: usize) -> bool
        requires { i + 6 < length self.now.bytes.now }
        ensures { result ≡ crossing_ok (is_newer self.now.edition) self.now.bytes.now i }
    {
        let f = self.bytes;
        let control = f[i];
        let lanes = f[i + fields::LANES_CROSSED];
        let speed = f[i + fields::SPEED_CROSSED];
        if crosses_nothing(is_newer(self.edition), control) {
            return (lanes == 0) & (speed == 0);
        }
        (2..=4).contains(&control) & (1..=12).contains(&lanes) & (5..=85).contains(&speed)
    }

    // The same with the limits of lanes and speed looked up, and not asked for by a branch for each kind of control. It takes more instructions; but in a
    // network so large that no processor foresees which kind comes next, a branch takes longer.
    #[tactic(auto, using(crate::proofs::LimitLaws::crossing_by_limits, crate::proofs::LimitLaws::no_such_control))]
    fn crossing_in_limits(&self, i: usize) -> bool
        requires { i + 6 < length self.now.bytes.now }
        ensures { result ≡ crossing_ok (is_newer self.now.edition) self.now.bytes.now i }
    {
        let f = self.bytes;
        let control = usize::from(f[i]);
        let lanes = f[i + fields::LANES_CROSSED];
        let speed = f[i + fields::SPEED_CROSSED];
        if control > last_control(is_newer(self.edition)) {
            return false;
        }
        is_within(LEAST_LANES[control], MOST_LANES[control], lanes)
            & is_within(LEAST_SPEED[control], MOST_SPEED[control], speed)
    }

    // The turn lane of the approach at place i of the frame. Most approaches have none.
    #[tactic(auto, using(crate::proofs::RangeLaws::contains_within, crate::proofs::RangeLaws::lane_there, crate::proofs::RangeLaws::lane_absent))]
    fn turn_lane_ok(&self, i: usize) -> bool
        requires { i + 6 < length self.now.bytes.now }
        ensures { result ≡ turn_lane_ok self.now.bytes.now i }
    {
        let f = self.bytes;
        let kind = f[i + fields::TURN_KIND];
        let feet = word_at(f, i + fields::TURN_FEET);
        let speed = f[i + fields::TURNING_SPEED];
        if has_no_lane(f, i) {
            return true;
        }
        (1..=3).contains(&kind) & (1..=MOST_TURN_FEET).contains(&feet) & (5..=85).contains(&speed)
    }

    // The approach at place i of the frame.
    #[tactic(auto, unfolding(crate::specs::Ranges::approach_ok))]
    fn approach_ok<const LARGE: bool>(&self, i: usize) -> bool
        requires { i + 6 < length self.now.bytes.now }
        ensures { result ≡ approach_ok (is_newer self.now.edition) self.now.bytes.now i }
    {
        let crossing = if LARGE {
            self.crossing_in_limits(i)
        } else {
            self.crossing_ok(i)
        };
        crossing && self.turn_lane_ok(i)
    }

    // All that the frame has after its ends. A frame that is refused is rare, so each test is a branch of its own, which costs the others nothing. It is
    // always inlined: where the edition is a constant, so is all that the edition fixes.
    #[inline(always)]
    #[tactic(auto, using(crate::proofs::RangeLaws::contains_within), unfolding(crate::specs::Ranges::street_by))]
    fn street<const LARGE: bool>(&self) -> bool
        ensures { result ≡ street_ok self.now.edition self.now.bytes.now }
    {
        let feet = self.feet();
        let feet_ok = (1..=most_feet(self.edition)).contains(&feet);
        let ways_ok = (1..=3).contains(&self.ways());
        ways_ok
            && feet_ok
            && self.form_ok()
            && self.approach_ok::<LARGE>(self.extra + fields::APPROACH_B)
            && self.approach_ok::<LARGE>(self.extra + fields::APPROACH_A)
    }
}

// The same of the bytes of a frame, as code for one edition and for those that are alike, and for large networks or not.
#[tactic(auto, using(crate::proofs::EditionLaws::alike_frames))]
pub fn street_by<const EDITION: u8, const LARGE: bool>(f: &[u8]) -> bool
    requires { frame_bytes EDITION ≤ length f.now }
    ensures { result ≡ street_ok EDITION f.now }
{
    let frame = Frame {
        bytes: f,
        edition: EDITION,
        extra: extra_of(EDITION),
    };
    frame.street::<LARGE>()
}

// The same for every edition, by code for it alone. It is always inlined: one call more for each line would be the longer way.
#[inline(always)]
#[tactic(auto, using(crate::proofs::EditionLaws::alike_frames, crate::proofs::RangeLaws::alike_streets, crate::proofs::EditionLaws::alike_first, crate::proofs::EditionLaws::alike_second, crate::proofs::EditionLaws::alike_third))]
pub fn street_ok(f: &[u8], edition: u8) -> bool
    requires { frame_bytes edition ≤ length f.now }
    ensures { result ≡ street_ok edition f.now }
{
    if !is_newer(edition) {
        return street_by::<1, false>(f);
    }
    if !is_wide(edition) {
        return street_by::<2, false>(f);
    }
    street_by::<3, false>(f)
}
