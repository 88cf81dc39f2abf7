// Frames of document 01, and of document 02's Notes 5 and 6: where their fields stand, what an edition fixes, the ranges and rules of the fields, and the
// decoded values. The definitions are in specs/; every function is equated with one of them.
#![tactic(auto)]

pub mod decoded;
pub mod edition;
pub mod fields;
pub mod frame;
pub mod ranges;
pub mod sizes;

// What a head says: the edition, the nodes N and the segments S.
#[derive(Clone, Copy)]
pub struct Head {
    pub edition: u8,
    pub nodes: usize,
    pub segments: usize,
}

// The form of a segment. Each case has only the lanes, speed, reach and marks that its levels are made from.
#[derive(Clone, Copy)]
pub enum Form {
    // Lanes are all through lanes.
    Mixed {
        lanes: u8,
        speed: u8,
        marks: u8,
    },
    // Lanes are those of one direction, in this case and the next; reach is in half feet, bike lane plus parking.
    BesideParking {
        lanes: u8,
        speed: u8,
        reach: u8,
        marks: u8,
    },
    // Reach is that of the bike lane.
    BikeLane {
        lanes: u8,
        speed: u8,
        reach: u8,
        marks: u8,
    },
    SeparatePath,
}

// What is crossed on riding in at an end of a segment.
#[derive(Clone, Copy)]
pub enum Crossing {
    Nothing,
    Signal,
    NoIsland { lanes: u8, speed: u8 },
    Island { lanes: u8, speed: u8 },
    OneWay { lanes: u8, speed: u8 },
    // A signal with a bicycle left-turn improvement.
    ImprovedSignal,
}

// The turn lane met there: its length in feet and the speed of the turning traffic.
#[derive(Clone, Copy)]
pub enum TurnLane {
    Absent,
    // The bike lane goes straight on beside it.
    Straight { feet: u16, speed: u8 },
    // The bike lane shifts left.
    ShiftsLeft { feet: u16, speed: u8 },
    NoBikeLane { feet: u16, speed: u8 },
}
