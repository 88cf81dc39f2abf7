// Standard input is a text, of which at most 65,536 bytes are read. For an output of 0 bytes, of 37 and of as many as a number can tell, prints the
// refusal's number, where the refused line begins and its length, and then the line itself.
#![tactic(auto)]

use splicereel::refused_line::{locate, refused_line};
use std::io;

fn show(rt: &impl Print, text: &[u8], room: usize) -> io::Result<()> {
    let refused = refused_line(text, room);
    let cursor = locate(text, room);
    println!(rt;
        "{} {} {}",
        refused.number,
        cursor.start,
        refused.bytes.len()
    )?;
    rt.write_all(refused.bytes)?;
    println!(rt)
}

fn main(rt: HostRuntime) -> io::Result<()> {
    let mut buffer = [0; 65536];
    let count = input::read_full(&mut rt.stdin(), &mut buffer);
    for room in [0, 37, usize::MAX] {
        show(&rt, &buffer[..count], room)?;
    }
    Ok(())
}
