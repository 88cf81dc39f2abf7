// Standard input to levels: for each segment of the network text its number, level and measure, or one line for a refusal. At most 65,536 bytes are
// read, and those are judged. What is printed is decided by `levels::levels`, which is proved, and is handed on as a whole, not in pieces.
#![tactic(auto)]

mod levels;

use levels::Page;
use std::io;

fn main(rt: HostRuntime) -> io::Result<()> {
    let mut text = [0u8; 65536];
    let count = input::read_full(&mut rt.stdin(), &mut text);
    let mut page = Page::new();
    levels::levels(&text[..count], &mut page);
    rt.write_all(page.as_str().as_bytes())
}
