// Where the fields of a frame stand, counted in bytes from its first: document 01, "Frames". All code takes these places from here; the definitions have the
// same in specs/Frame.antt.

// ---- Every frame begins with its kind.
pub const KIND: usize = 0;

pub const HEAD_KIND: u8 = 1;

pub const SEGMENT_KIND: u8 = 2;

// ---- Head
pub const HEAD_BYTES: usize = 7;

pub const EDITION: usize = 1;

pub const NODES: usize = 2;

pub const SEGMENTS: usize = 4;

pub const HEAD_CHECK: usize = 6;

// The bytes of a head's line: two digits for a byte, and 0A.
pub const HEAD_LINE: usize = 2 * HEAD_BYTES + 1;

// ---- Segment
pub const NODE_A: usize = 1;

pub const LEG_A: usize = 3;

pub const NODE_B: usize = 4;

pub const LEG_B: usize = 6;

// From a field of the A end to the same of the B end.
pub const END_BYTES: usize = 3;

pub const FEET: usize = 7;

// The bytes of a length, but for those that an edition's has beyond 2.
pub const FEET_BYTES: usize = 2;

// ---- After a segment's length: each stands further on by the bytes that an edition's length has beyond 2.
pub const FORM: usize = 9;

pub const WAYS: usize = 10;

pub const LANES: usize = 11;

pub const SPEED: usize = 12;

pub const REACH: usize = 13;

pub const MARKS: usize = 14;

pub const APPROACH_B: usize = 15;

pub const APPROACH_A: usize = 22;

// From a field of the approach at B to the same of the approach at A.
pub const APPROACH_BYTES: usize = 7;

// ---- Approach, counted from its own first byte, which is its control.
pub const LANES_CROSSED: usize = 1;

pub const SPEED_CROSSED: usize = 2;

pub const TURN_KIND: usize = 3;

pub const TURN_FEET: usize = 4;

pub const TURNING_SPEED: usize = 6;
