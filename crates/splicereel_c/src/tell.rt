// How each answer is told: a refusal's number is returned and writes nothing, and an answer that is none writes its numbers in front.
ghost use Rattle.std.specs.Prelude.{◌≡◌, ℕ, List, ◌++◌, length, drop, IfOk};
ghost use Rattle.splicereel_c.specs.Replies.{Replies};
ghost use Rattle.splicereel_c.specs.Steps.Tells.{reply_to, CountFits, count_entries};

use refusals::Refusal;

// What a call tells where it answers.
pub trait Told {
    // Its numbers fit 32 bits, those that may be longer.
    ghost fits: { Self → Type 0 };

    // The first entries of `told`.
    ghost entries: { Self → List ℕ };

    // Writes them; the later entries stay as they came.
    fn write(self, told: &mut [u32; 8])
        requires { fits self }
        ensures { told.new ≡ entries self ++ drop (length (entries self)) told.old };
}

// Tells an answer: 0, or the refusal's number.
pub fn tell<T: Told>(answer: Result<T, Refusal>, told: &mut [u32; 8]) -> u32
    requires { IfOk answer T.fits }
    ensures { Replies (reply_to T.entries answer) told.old told.new result }
{
    match answer {
        Ok(what) => {
            what.write(told);
            0
        }
        Err(refusal) => u32::from(u8::from(refusal)),
    }
}

// A count, of entries or of bytes.
impl Told for usize {
    ghost fits = { CountFits };

    ghost entries = { count_entries };

    fn write(self, told: &mut [u32; 8]) {
        told[0] = self as u32;
    }
}
