// Text put at the end of a page of any size, for the programs.
#![tactic(auto)]

ghost use Rattle.std.specs.Prelude.{◌≡◌, ◌+◌, ◌≤◌, ◌<◌, [], ◌∷◌, ◌++◌};
ghost use Rattle.arrayvec.specs.ArrayString.{array_string_len};
ghost use Rattle.printing.specs.Output.{decimal, displayed};

use arrayvec::ArrayString;
use itoa::Buffer;

// A number in decimal, which is what `{}` prints of it, and one character after it.
pub fn put_field<const CAP: usize>(n: usize, after: char, page: &mut ArrayString<CAP>)
    requires room { array_string_len page.old + 21 ≤ CAP }
    requires ascii { after < 128 }
    ensures text { page.new.bytes ≡ page.old.bytes ++ (decimal 20 n ++ (after ∷ [])) }
    ensures displayed { page.new.bytes ≡ page.old.bytes ++ (displayed n ++ (after ∷ [])) }
    ensures len { array_string_len page.new ≤ array_string_len page.old + 21 }
{
    page.push_str(Buffer::new().format(n));
    page.push(after);
}
