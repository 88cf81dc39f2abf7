// The same questions asked in a county's memory, which no call chooses for a town; what is said there must be what is said in a town's. A line is printed only
// where it is not.
use crate::{RUNS, runs, scratch};
use frames::ranges::head_ok;
use frames::{fields, sizes};
use network::corners::{COUNTY_CORNERS, free_corners};
use network::kept::is_kept_in_county;
use network::legs::no_legs;
use queue::TOP;
use refusals::Refusal;
use routes::{Found, LeastRoute};
use search_labels::label_in;
use search_relaxing::Ask;
use search_rounds::explore::unknown;
use search_rounds::search::Search;
use splicereel::judge::{judge_movement, judge_movement_in_county};
use splicereel::least_stress::least_stress_in_county;
use splicereel::route::route_in_county;
use std::io;
use streets::kept::Streets;
use text::GoodHead;
use text::read::judge_in_county;

pub fn differs(rt: &impl Print) -> io::Result<()> {
    println!(rt; "a county's memory says something else")
}

// The least length that a search in a county's memory finds; none where it finds none or the question is not in order.
fn least_length(net: &[u8], from: usize, to: usize, tolerance: u8) -> Option<u32> {
    let mut legs = no_legs::<{ sizes::COUNTY }>();
    let mut index = free_corners::<COUNTY_CORNERS>();
    let streets = Streets::indexed(net, &mut legs, &mut index)?;
    let nodes = streets.net.nodes();
    if from >= nodes || to >= nodes || from == to {
        return None;
    }
    let runs = streets.net.runs();
    if runs > RUNS {
        return None;
    }
    let mut best = scratch();
    let mut previous = scratch();
    let ask = Ask {
        streets,
        index: &index,
        runs,
        least: tolerance,
        tolerance,
        from,
        limit: TOP,
    };
    let mut goals = unknown::<{ sizes::COUNTY }>();
    goals[to] = 1;
    let search = Search { ask, goals: &goals };
    let key = search.search_in_county(&mut best, &mut previous).ok()?;
    Some(label_in(key))
}

// The length of a route that is found between two nodes; none for every other answer.
fn length_of(from: usize, to: usize, answer: Result<Option<Found>, Refusal>) -> Option<u32> {
    match answer {
        Ok(Some(found)) if from != to => Some(found.length),
        _ => None,
    }
}

pub fn same_route(
    rt: &impl Print,
    net: &[u8],
    from: usize,
    to: usize,
    tolerance: usize,
    place: usize,
    here: Result<Option<Found>, Refusal>,
    runs_here: &[u16],
) -> io::Result<()> {
    let mut best = scratch();
    let mut previous = scratch();
    let mut buffer = runs();
    let there = route_in_county(
        net,
        from,
        to,
        tolerance,
        &mut best,
        &mut previous,
        &mut buffer,
        place,
    );
    if here != there || runs_here != buffer.as_slice() {
        differs(rt)?;
    }
    match tolerance {
        1..=4 if length_of(from, to, here) != least_length(net, from, to, tolerance as u8) => {
            differs(rt)
        }
        _ => Ok(()),
    }
}

pub fn same_least(
    rt: &impl Print,
    net: &[u8],
    from: usize,
    to: usize,
    place: usize,
    here: Result<Option<LeastRoute>, Refusal>,
    runs_here: &[u16],
) -> io::Result<()> {
    let mut best = scratch();
    let mut previous = scratch();
    let mut buffer = runs();
    let there = least_stress_in_county(net, from, to, &mut best, &mut previous, &mut buffer, place);
    if here != there || runs_here != buffer.as_slice() {
        return differs(rt);
    }
    Ok(())
}

// The test of the bytes, and the movements between the first runs.
pub fn same_levels(rt: &impl Print, net: &[u8]) -> io::Result<()> {
    if !is_kept_in_county(net) {
        differs(rt)?;
    }
    for pair in 0..1600 {
        let here = judge_movement(net, pair / 40, pair % 40);
        let there = judge_movement_in_county(net, pair / 40, pair % 40);
        if here != there {
            differs(rt)?;
        }
    }
    Ok(())
}

// The lines after the head of a text that was read, and the bytes that they keep.
pub fn same_reading(rt: &impl Print, text: &[u8], net: &[u8]) -> io::Result<()> {
    if net.len() < fields::HEAD_BYTES {
        return Ok(());
    }
    if text.len() < fields::HEAD_LINE {
        return Ok(());
    }
    let first = [net[0], net[1], net[2], net[3], net[4], net[5], net[6]];
    if head_ok(&first) {
        let head = GoodHead { bytes: first };
        if judge_in_county(&text[fields::HEAD_LINE..], &head) != Ok(net.len()) {
            differs(rt)?;
        }
    }
    Ok(())
}
