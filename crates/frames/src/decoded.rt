// The decoded values of a head and of a segment's frame, read where they stand.
ghost use Rattle.std.specs.Prelude.{◌+◌, ◌≤◌, ◌<◌, ◌≡◌, length};
ghost use Rattle.frames.specs.Edition.{frame_bytes};
ghost use Rattle.frames.specs.Frame.{head_bytes, ways};
ghost use Rattle.frames.specs.Decoded.{head_fields, form_of, crossing_of, turn_lane_of};

use crate::frame::{Frame, word_at};
use crate::{Crossing, Form, Head, TurnLane, fields};

// What a head says.
pub fn head_of(h: &[u8]) -> Head
    requires { head_bytes ≤ length h.now }
    ensures { result ≡ head_fields h.now }
{
    Head {
        edition: h[fields::EDITION],
        nodes: word_at(h, fields::NODES),
        segments: word_at(h, fields::SEGMENTS),
    }
}

impl Frame<'_> {
    // The ways in which the segment is open.
    pub fn ways(&self) -> u8
        ensures { result ≡ ways self.now.edition self.now.bytes.now }
    {
        self.bytes[self.extra + fields::WAYS]
    }

    // The segment's form, with only the fields that its case has.
    #[tactic(auto, unfolding(crate::specs::Decoded::form_of))]
    pub fn form(&self) -> Form
        ensures { result ≡ form_of self.now.edition self.now.bytes.now }
    {
        let f = self.bytes;
        let x = self.extra;
        let lanes = f[x + fields::LANES];
        let speed = f[x + fields::SPEED];
        let reach = f[x + fields::REACH];
        let marks = f[x + fields::MARKS];
        match f[x + fields::FORM] {
            0 => Form::Mixed {
                lanes,
                speed,
                marks,
            },
            1 => Form::BesideParking {
                lanes,
                speed,
                reach,
                marks,
            },
            2 => Form::BikeLane {
                lanes,
                speed,
                reach,
                marks,
            },
            _ => Form::SeparatePath,
        }
    }

    // What the approach at place i of the frame crosses.
    #[tactic(auto, unfolding(crate::specs::Decoded::crossing_of))]
    pub fn crossing(&self, i: usize) -> Crossing
        requires { i + 6 < frame_bytes self.now.edition }
        ensures { result ≡ crossing_of self.now.edition self.now.bytes.now i }
    {
        let f = self.bytes;
        let lanes = f[i + fields::LANES_CROSSED];
        let speed = f[i + fields::SPEED_CROSSED];
        match f[i] {
            0 => Crossing::Nothing,
            1 => Crossing::Signal,
            2 => Crossing::NoIsland { lanes, speed },
            3 => Crossing::Island { lanes, speed },
            4 => Crossing::OneWay { lanes, speed },
            _ => Crossing::ImprovedSignal,
        }
    }

    // The turn lane of the approach at place i of the frame.
    #[tactic(auto, unfolding(crate::specs::Decoded::turn_lane_of))]
    pub fn turn_lane(&self, i: usize) -> TurnLane
        requires { i + 6 < frame_bytes self.now.edition }
        ensures { result ≡ turn_lane_of self.now.bytes.now i }
    {
        let f = self.bytes;
        let feet = word_at(f, i + fields::TURN_FEET) as u16;
        let speed = f[i + fields::TURNING_SPEED];
        match f[i + fields::TURN_KIND] {
            0 => TurnLane::Absent,
            1 => TurnLane::Straight { feet, speed },
            2 => TurnLane::ShiftsLeft { feet, speed },
            _ => TurnLane::NoBikeLane { feet, speed },
        }
    }
}
