// The reach map and the nearest of marked nodes, asked in a town's memory and in a county's. A line is printed only where they do not say the same.
use crate::county::differs;
use crate::scratch;
use frames::sizes;
use refusals::Refusal;
use routes::Found;
use search_rounds::explore::unknown;
use splicereel::nearest::{nearest, nearest_in_county};
use splicereel::reach_map::{reach_map, reach_map_in_county};
use std::io;

// The greatest length that is asked: that of the route which was found, so that its last node is just within it.
fn greatest_of(answer: Result<Option<Found>, Refusal>) -> usize {
    match answer {
        Ok(Some(found)) => found.length as usize,
        _ => 1500,
    }
}

fn same_map(
    rt: &impl Print,
    net: &[u8],
    from: usize,
    tolerance: usize,
    greatest: usize,
) -> io::Result<()> {
    let mut best = scratch();
    let mut previous = scratch();
    let mut list = scratch();
    let here = reach_map(
        net,
        from,
        tolerance,
        greatest,
        &mut best,
        &mut previous,
        &mut list,
    );
    let mut county_list = scratch();
    let there = reach_map_in_county(
        net,
        from,
        tolerance,
        greatest,
        &mut best,
        &mut previous,
        &mut county_list,
    );
    // The numbers after the entries too.
    if here != there || list != county_list {
        return differs(rt);
    }
    Ok(())
}

// Marks one node, and every fifth node before and after it.
fn mark(marks: &mut [u8], to: usize) {
    for (node, marked) in marks.iter_mut().enumerate() {
        *marked = u8::from(node % 5 == to % 5);
    }
}

fn same_nearest(
    rt: &impl Print,
    net: &[u8],
    from: usize,
    to: usize,
    tolerance: usize,
) -> io::Result<()> {
    let mut best = scratch();
    let mut previous = scratch();
    let mut marks = unknown::<{ sizes::TOWN }>();
    mark(&mut marks, to);
    let here = nearest(net, from, tolerance, &marks, &mut best, &mut previous);
    let there = nearest_in_county(net, from, tolerance, &marks, &mut best, &mut previous);
    if here != there {
        return differs(rt);
    }
    Ok(())
}

// After Route, from the same node at the same tolerance.
pub fn same_reach(
    rt: &impl Print,
    net: &[u8],
    from: usize,
    to: usize,
    tolerance: usize,
    route: Result<Option<Found>, Refusal>,
) -> io::Result<()> {
    same_map(rt, net, from, tolerance, greatest_of(route))?;
    same_nearest(rt, net, from, to, tolerance)
}
