// Prints the plain level examples of document 01, then its tables at both ends of every band, form 1 round the limits of Note 2 of document 02, and its Note
// 5's rules round theirs (newer.rt). The stored output has the papers' numbers.
#![tactic(auto)]

mod newer;

use frames::{Crossing, Form, TurnLane};
use std::io;
use stress::crossing::older_crossing;
use stress::segment::older_grade;
use stress::turn_lane::turn_lane_level;

// What is crossed under a control of 2 or more.
fn crossing(control: u8, lanes: u8, speed: u8) -> Crossing {
    match control {
        2 => Crossing::NoIsland { lanes, speed },
        3 => Crossing::Island { lanes, speed },
        _ => Crossing::OneWay { lanes, speed },
    }
}

// The control and the speed, then levels for 1 to 6 and 12 lanes.
fn crossing_levels(rt: &impl Print, control: u8, speed: u8) -> io::Result<()> {
    print!(rt; "control {control} {speed} mph:")?;
    for lanes in [1, 2, 3, 4, 5, 6, 12] {
        let level = older_crossing(crossing(control, lanes, speed));
        print!(rt; " {level}")?;
    }
    println!(rt)
}

// The tables of all controls, at both ends of every speed band.
fn crossing_tables(rt: &impl Print) -> io::Result<()> {
    for control in [2, 3, 4] {
        for speed in [5, 25, 26, 30, 31, 35, 36, 85] {
            crossing_levels(rt, control, speed)?;
        }
    }
    Ok(())
}

// Turn lanes of kinds 1, 2 and 3, on both sides of each limit of their length and speed.
fn turn_lanes(rt: &impl Print) -> io::Result<()> {
    for (feet, speed) in [
        (75, 15),
        (76, 15),
        (150, 15),
        (151, 15),
        (75, 16),
        (150, 20),
        (150, 21),
    ] {
        let straight = turn_lane_level(TurnLane::Straight { feet, speed });
        let left = turn_lane_level(TurnLane::ShiftsLeft { feet, speed });
        let none = turn_lane_level(TurnLane::NoBikeLane { feet, speed });
        println!(rt; "turn lanes {feet} ft {speed} mph: {straight} {left} {none}")?;
    }
    Ok(())
}

// Level and measure of form 1 with one lane: no mark, residential, often blocked, both.
fn parking_marks(rt: &impl Print, reach: u8, speed: u8) -> io::Result<()> {
    print!(rt; "beside parking, reach {reach}, {speed} mph:")?;
    for (before, marks) in [("", 0), (",", 2), (",", 8), (",", 10)] {
        let form = Form::BesideParking {
            lanes: 1,
            speed,
            reach,
            marks,
        };
        let grade = older_grade(form);
        print!(rt; "{before} {} {}", grade.level, grade.measure)?;
    }
    println!(rt)
}

// On both sides of each limit of the reach and of 25 mph, and in every speed band.
fn parking_table(rt: &impl Print) -> io::Result<()> {
    for reach in [26, 27, 28, 29, 30, 31] {
        for speed in [20, 24, 25, 26, 30, 31, 36] {
            parking_marks(rt, reach, speed)?;
        }
    }
    Ok(())
}

// The example's name, then level and measure.
fn segment(rt: &impl Print, name: &str, form: Form) -> io::Result<()> {
    let grade = older_grade(form);
    println!(rt; "{name}: {} {}", grade.level, grade.measure)
}

fn mixed_traffic(rt: &impl Print) -> io::Result<()> {
    for (name, lanes, speed, marks) in [
        ("mixed, 2 lanes, centreline, 31 mph", 2, 31, 1),
        ("mixed, 5 lanes, 25 mph", 5, 25, 0),
        ("mixed, 6 lanes, 25 mph", 6, 25, 0),
    ] {
        let form = Form::Mixed {
            lanes,
            speed,
            marks,
        };
        segment(rt, name, form)?;
    }
    Ok(())
}

fn beside_parking(rt: &impl Print) -> io::Result<()> {
    for (name, reach, marks) in [
        ("beside parking, 1 lane, 25 mph, reach 28", 28, 0),
        ("beside parking, 1 lane, 25 mph, reach 30", 30, 0),
        ("beside parking, 1 lane, 25 mph, reach 30, blocked", 30, 8),
    ] {
        let form = Form::BesideParking {
            lanes: 1,
            speed: 25,
            reach,
            marks,
        };
        segment(rt, name, form)?;
    }
    Ok(())
}

fn bike_lanes_and_paths(rt: &impl Print) -> io::Result<()> {
    for (name, lanes, speed, reach) in [
        ("bike lane, 1 lane, 36 mph, reach 12", 1, 36, 12),
        ("bike lane, 2 lanes, 25 mph, reach 11", 2, 25, 11),
    ] {
        let form = Form::BikeLane {
            lanes,
            speed,
            reach,
            marks: 0,
        };
        segment(rt, name, form)?;
    }
    segment(rt, "separate path", Form::SeparatePath)
}

fn main(rt: HostRuntime) -> io::Result<()> {
    mixed_traffic(&rt)?;
    beside_parking(&rt)?;
    bike_lanes_and_paths(&rt)?;
    crossing_tables(&rt)?;
    turn_lanes(&rt)?;
    parking_table(&rt)?;
    newer::examples(&rt)
}
