// Levels by the newer rules of document 02's Note 5.
use frames::{Crossing, Form};
use std::io;
use stress::crossing::{newer_crossing, older_crossing};
use stress::newer_segment::newer_grade;

// A street with a bike lane: ways, lanes, speed, reach and marks. Marks are a sum of 1 centreline, 2 residential, 8 often blocked, 16 central turn lane.
type Street = (u8, u8, u8, u8, u8);

// The street, then level and measure.
fn print_grade(rt: &impl Print, name: &str, street: Street, form: Form) -> io::Result<()> {
    let (ways, lanes, speed, reach, marks) = street;
    let grade = newer_grade(ways, form);
    print!(rt;
        "newer, {name}, ways {ways}, lanes {lanes}, {speed} mph, reach {reach}, marks {marks}:"
    )?;
    println!(rt; " {} {}", grade.level, grade.measure)
}

fn beside_parking(rt: &impl Print, street: Street) -> io::Result<()> {
    let (_, lanes, speed, reach, marks) = street;
    let form = Form::BesideParking {
        lanes,
        speed,
        reach,
        marks,
    };
    print_grade(rt, "beside parking", street, form)
}

fn bike_lane(rt: &impl Print, street: Street) -> io::Result<()> {
    let (_, lanes, speed, reach, marks) = street;
    let form = Form::BikeLane {
        lanes,
        speed,
        reach,
        marks,
    };
    print_grade(rt, "bike lane", street, form)
}

// The mixed level where it is lower and where it is not, at twice the lanes and at the lanes; the reach that counts as more, round each of its limits.
fn streets(rt: &impl Print) -> io::Result<()> {
    for street in [
        (3, 1, 25, 27, 0),
        (3, 1, 25, 27, 16),
        (3, 1, 26, 23, 17),
        (3, 1, 26, 24, 17),
        (3, 1, 26, 25, 17),
        (3, 1, 26, 26, 17),
        (1, 1, 26, 26, 17),
        (3, 2, 26, 26, 17),
        (3, 3, 25, 27, 0),
        (2, 3, 25, 27, 0),
    ] {
        beside_parking(rt, street)?;
    }
    for street in [
        (1, 3, 25, 12, 0),
        (2, 3, 25, 12, 0),
        (3, 3, 25, 12, 0),
        (3, 2, 25, 12, 0),
        (3, 1, 26, 12, 9),
        (3, 1, 26, 12, 11),
        (3, 1, 25, 7, 17),
        (3, 1, 25, 8, 17),
        (3, 12, 36, 12, 0),
    ] {
        bike_lane(rt, street)?;
    }
    Ok(())
}

// A signal by the older rules; then one by the newer rules, without and with a left-turn improvement.
fn signals(rt: &impl Print) -> io::Result<()> {
    let older = older_crossing(Crossing::Signal);
    let newer = newer_crossing(Crossing::Signal);
    let improved = newer_crossing(Crossing::ImprovedSignal);
    println!(rt; "signal: {older}; newer: {newer}, improved {improved}")
}

pub fn examples(rt: &impl Print) -> io::Result<()> {
    streets(rt)?;
    signals(rt)
}
