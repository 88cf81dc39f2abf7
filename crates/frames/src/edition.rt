// What an edition fixes. Editions 01, 02 and 03 exist: a later one adds its case to the functions of this file that it changes.
ghost use Rattle.std.specs.Prelude.{◌≡◌};
ghost use Rattle.frames.specs.Edition.{edition_ok, is_newer, is_wide, most_nodes, most_segments, most_feet, marks_ok, crosses_nothing};
ghost use Rattle.frames.specs.Steps.Sizes.{Extra, FrameSize, last_control};

use crate::{fields, sizes};

// The longest turn lane, in feet.
pub const MOST_TURN_FEET: usize = 2000;

// In so many bytes every network that Read can keep has room.
pub const MOST_KEPT: usize = fields::HEAD_BYTES + sizes::MOST_BYTES * sizes::COUNTY;

// The bytes of a segment's frame where its length has 2.
pub const SEGMENT_BYTES: usize = 30;

// Whether the edition exists.
#[tactic(auto, unfolding(crate::specs::Edition::edition_ok))]
pub fn edition_ok(e: u8) -> bool
    ensures { result ≡ edition_ok e }
{
    (1..=3).contains(&e)
}

// Whether the edition has the newer rules of document 02's Note 5: every one after edition 01.
#[tactic(auto, unfolding(crate::specs::Edition::is_newer))]
pub fn is_newer(e: u8) -> bool
    ensures { result ≡ is_newer e }
{
    e >= 2
}

// Whether the edition is for counties: lengths of 4 bytes, and higher limits.
#[tactic(auto, unfolding(crate::specs::Edition::is_wide))]
pub fn is_wide(e: u8) -> bool
    ensures { result ≡ is_wide e }
{
    e >= 3
}

// The most nodes that a head may have.
#[tactic(auto, unfolding(crate::specs::Edition::most_nodes))]
pub fn most_nodes(e: u8) -> usize
    ensures { result ≡ most_nodes e }
{
    if is_wide(e) { 8000 } else { 1000 }
}

// The most segments that a head may have.
#[tactic(auto, unfolding(crate::specs::Edition::most_segments))]
pub fn most_segments(e: u8) -> usize
    ensures { result ≡ most_segments e }
{
    if is_wide(e) { 8000 } else { 1000 }
}

// The bytes that a segment's length has beyond two: what comes after it in the frame stands that much further on.
#[tactic(auto, unfolding(crate::specs::Edition::extra, crate::specs::Edition::frame_bytes))]
pub fn extra_of(e: u8) -> usize
    ensures { Extra e result }
{
    if is_wide(e) { 2 } else { 0 }
}

// The bytes of a segment's frame.
pub fn frame_bytes(e: u8) -> usize
    ensures { FrameSize e result }
{
    SEGMENT_BYTES + extra_of(e)
}

// The longest length of a segment.
#[tactic(auto, unfolding(crate::specs::Edition::most_feet))]
pub fn most_feet(e: u8) -> usize
    ensures { result ≡ most_feet e }
{
    if is_wide(e) { 264000 } else { 52800 }
}

// Marks that are a sum of those that the rules have.
#[tactic(auto, unfolding(crate::specs::Edition::marks_ok))]
pub fn marks_ok(newer: bool, marks: u8) -> bool
    ensures { result ≡ marks_ok newer marks }
{
    marks <= if newer { 31 } else { 15 }
}

// Controls that have lanes and speed 0.
#[tactic(auto, unfolding(crate::specs::Edition::crosses_nothing))]
pub fn crosses_nothing(newer: bool, control: u8) -> bool
    ensures { result ≡ crosses_nothing newer control }
{
    control <= 1 || (newer && control == 5)
}

// The last control that the rules have.
pub fn last_control(newer: bool) -> usize
    ensures { result ≡ last_control newer }
{
    if newer { 5 } else { 4 }
}
