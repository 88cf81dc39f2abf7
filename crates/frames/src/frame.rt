// The bytes of any frame: its fields' widths, its check and its kind.
ghost use Rattle.std.specs.Prelude.{◌+◌, ◌%◌, ◌≤◌, ◌<◌, ◌≡◌, eqb, length};
ghost use Rattle.frames.specs.Edition.{frame_bytes};
ghost use Rattle.frames.specs.Frame.{byte, word, total, feet};
ghost use Rattle.frames.specs.Faults.{framed};
ghost use Rattle.frames.specs.Steps.Sizes.{Extra};

use crate::fields;

// A byte as a number that sums and products have room for.
pub fn byte_at(f: &[u8], i: usize) -> usize
    requires { i < length f.now }
    ensures { (result ≡ byte f.now i) × (result < 256) }
{
    usize::from(f[i])
}

// A field of two bytes, the high byte first.
pub fn word_at(f: &[u8], i: usize) -> usize
    requires { i + 1 < length f.now }
    ensures { (result ≡ word f.now i) × (result < 65536) }
{
    usize::from(u16::from_be_bytes([f[i], f[i + 1]]))
}

// The sum of a frame's bytes modulo 256, which a right check makes 0.
#[tactic(auto, using(crate::proofs::FrameLaws::total_step, crate::proofs::FrameLaws::total_none))]
pub fn sum_of(f: &[u8]) -> usize
    ensures { result ≡ total f.now % 256 }
{
    let mut sum: u8 = 0;
    for byte in f {
        sum = sum.wrapping_add(*byte);
    }
    usize::from(sum)
}

// Bytes of a frame's length are a frame of this kind.
#[tactic(auto, using(crate::proofs::FrameLaws::check_and_kind))]
pub fn is_framed(f: &[u8], kind: u8) -> bool
    requires { 0 < length f.now }
    ensures { result ≡ eqb (framed kind (length f.now) f.now 0) 0 }
{
    (sum_of(f) == 0) & (f[fields::KIND] == kind)
}

// A segment's frame, of an edition: what stands in it is told by its methods, here and in `decoded` and `ranges`. So many bytes its length has beyond two: what
// comes after it stands that much further on. A search reads so many frames of one network that this is not asked of the edition each time.
#[derive(Clone, Copy)]
pub struct Frame<'a> {
    pub bytes: &'a [u8],
    pub edition: u8,
    pub extra: usize,
    pub ghost whole: { frame_bytes edition ≤ length bytes.now },
    pub ghost wide: { Extra edition extra },
}

impl Frame<'_> {
    // The segment's length in feet: a number of two bytes, or of four.
    #[tactic(auto, using(crate::proofs::FrameLaws::feet_of_two, crate::proofs::FrameLaws::feet_of_four))]
    pub fn feet(&self) -> usize
        ensures { (result ≡ feet self.now.edition self.now.bytes.now) × (result < 4294967296) }
    {
        let high = word_at(self.bytes, fields::FEET);
        if self.extra == 0 {
            return high;
        }
        high * 65536 + word_at(self.bytes, fields::FEET + fields::FEET_BYTES)
    }
}
