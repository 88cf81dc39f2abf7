// Standard input is a network text. Prints what Route says between its first nine nodes, and between 24 pairs spread over the network, at tolerances 0
// to 5, and what Least stress says; for a refusal its number and whether anything lent was written. The
// last five lines are refusals 11, 8 and, for a short scratch, 11. Which of several shortest routes is drawn is free,
// so only lengths are printed. Every question is asked a second time in a county's memory, which must say the same; and so are a reach map and the
// nearest of marked nodes from each node that Route began at.
#![tactic(auto)]

ghost use Rattle.std.specs.Prelude.{◌≡◌, ◌*◌, length};
ghost use Rattle.frames.specs.Steps.Sizes.{town_size};

mod county;
mod reaching;

use crate::county::{same_least, same_levels, same_reading, same_route};
use crate::reaching::same_reach;
use frames::sizes;
use refusals::Refusal;
use routes::Found;
use std::io;

// Two runs for each segment of a town.
pub const RUNS: usize = 2 * sizes::TOWN;

const SCRATCH: u32 = 7;

const RUN: u16 = 9;

const PLACE: usize = 50;

// A run for each of a town from the place on, and as many elements after them as before.
const BUFFER: usize = PLACE + RUNS + PLACE;

pub fn scratch() -> [u32; RUNS]
    ensures { length result ≡ 2 * town_size }
{
    [SCRATCH; RUNS]
}

pub fn runs() -> [u16; BUFFER] {
    [RUN; BUFFER]
}

// Every number is as it was lent.
fn same<T: Copy + PartialEq>(numbers: &[T], lent: T) -> bool {
    numbers.iter().all(|number| *number == lent)
}

fn found(rt: &impl Print, route: Found) -> io::Result<()> {
    print!(rt; "found {}", route.length)
}

// A refusal's number, and whether what was lent came back as it was.
fn refused(
    rt: &impl Print,
    refusal: Refusal,
    best: &[u32],
    previous: &[u32],
    buffer: &[u16],
) -> io::Result<()> {
    print!(rt; "refused {} ", u8::from(refusal))?;
    if same(best, SCRATCH) & same(previous, SCRATCH) & same(buffer, RUN) {
        print!(rt; "untouched")
    } else {
        print!(rt; "written")
    }
}

fn none(rt: &impl Print, buffer: &[u16]) -> io::Result<()> {
    if same(buffer, RUN) {
        print!(rt; "none")
    } else {
        print!(rt; "none, written")
    }
}

fn show_route(
    rt: &impl Print,
    net: &[u8],
    from: usize,
    to: usize,
    tolerance: usize,
    place: usize,
) -> io::Result<()> {
    let mut best = scratch();
    let mut previous = scratch();
    let mut buffer = runs();
    print!(rt; "{from} {to} {tolerance} ")?;
    let answer = splicereel::route::route(
        net,
        from,
        to,
        tolerance,
        &mut best,
        &mut previous,
        &mut buffer,
        place,
    );
    match answer {
        Ok(Some(route)) => found(rt, route)?,
        Ok(None) => none(rt, &buffer)?,
        Err(refusal) => refused(rt, refusal, &best, &previous, &buffer)?,
    }
    println!(rt)?;
    same_route(rt, net, from, to, tolerance, place, answer, &buffer)?;
    same_reach(rt, net, from, to, tolerance, answer)
}

fn show_least(rt: &impl Print, net: &[u8], from: usize, to: usize, place: usize) -> io::Result<()> {
    let mut best = scratch();
    let mut previous = scratch();
    let mut buffer = runs();
    print!(rt; "{from} {to} least ")?;
    let answer = splicereel::least_stress::least_stress(
        net,
        from,
        to,
        &mut best,
        &mut previous,
        &mut buffer,
        place,
    );
    match answer {
        Ok(Some(least)) => {
            found(rt, least.route)?;
            print!(rt; " {}", least.tolerance)?;
        }
        Ok(None) => none(rt, &buffer)?,
        Err(refusal) => refused(rt, refusal, &best, &previous, &buffer)?,
    }
    println!(rt)?;
    same_least(rt, net, from, to, place, answer, &buffer)
}

fn show(rt: &impl Print, net: &[u8], from: usize, to: usize) -> io::Result<()> {
    for tolerance in 0..6 {
        show_route(rt, net, from, to, tolerance, PLACE)?;
    }
    show_least(rt, net, from, to, PLACE)
}

// A scratch of one number, too short where there is a segment.
fn show_short(rt: &impl Print, net: &[u8]) -> io::Result<()> {
    let mut best = [SCRATCH; 1];
    let mut previous = scratch();
    let mut buffer = runs();
    match splicereel::route::route(net, 0, 0, 1, &mut best, &mut previous, &mut buffer, PLACE) {
        Ok(Some(route)) => found(rt, route)?,
        Ok(None) => none(rt, &buffer)?,
        Err(refusal) => refused(rt, refusal, &best, &previous, &buffer)?,
    }
    println!(rt)
}

// A place beyond the buffer's end; and bytes that are no network, the head's first byte left out.
fn show_refusals(rt: &impl Print, net: &[u8]) -> io::Result<()> {
    show_route(rt, net, 0, 0, 1, BUFFER + 1)?;
    show_least(rt, net, 0, 0, BUFFER + 1)?;
    if 0 < net.len() {
        show_route(rt, &net[1..], 0, 0, 1, PLACE)?;
        show_least(rt, &net[1..], 0, 0, PLACE)?;
    }
    show_short(rt, net)
}

fn show_all(rt: &impl Print, net: &[u8]) -> io::Result<()> {
    for pair in 0..81 {
        show(rt, net, pair / 9, pair % 9)?;
    }
    for k in 1..25 {
        show(rt, net, k * 37 % sizes::TOWN, k * 91 % sizes::TOWN)?;
    }
    show_refusals(rt, net)?;
    same_levels(rt, net)
}

fn main(rt: HostRuntime) -> io::Result<()> {
    let mut buffer = [0u8; 65536];
    let count = input::read_full(&mut rt.stdin(), &mut buffer);
    let text = &buffer[..count];
    let mut net = [0u8; 65536];
    match splicereel::read::read(text, &mut net) {
        Err(_) => println!(rt; "not read"),
        Ok(kept) => {
            let network = &net[..kept];
            show_all(&rt, network)?;
            same_reading(&rt, text, network)
        }
    }
}
