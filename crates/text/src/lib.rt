// Network texts of document 01, and the call Read. The definitions are in specs/; every function is equated with one of them.
#![tactic(auto)]

ghost use Rattle.std.specs.Prelude.{◌≡◌, true};
ghost use Rattle.frames.specs.Ranges.{head_ok};

pub mod read;

use frames::fields;
use refusals::Refusal;

// Why Read refuses a text, and the line that is refused, counted from 1.
#[derive(Clone, Copy, PartialEq, Eq)]
pub struct Refused {
    pub refusal: Refusal,
    pub line: usize,
}

// The bytes of a head whose fields are in order.
#[derive(Clone, Copy)]
pub struct GoodHead {
    pub bytes: [u8; fields::HEAD_BYTES],
    pub ghost good: { head_ok bytes ≡ true },
}
