// Level and governing measure of a segment's form by the newer rules.
ghost use Rattle.std.specs.Prelude.{◌≡◌};
ghost use Rattle.stress.specs.NewerSegment.{is_widened, counted_reach, mixed_beside, lower_of, newer_grade};

use crate::segment::{
    Grade, bike_lane_levels, grade_of_four, greatest_of, has, mixed_level, older_grade,
    older_level, parking_levels,
};
use frames::Form;

// The mark of a central two-way turn lane.
const CENTRAL_LANE: u8 = 16;

// Where the reach counts as more: one lane each way, and a turn lane between them.
fn is_widened(ways: u8, lanes: u8, marks: u8) -> bool
    ensures { result ≡ is_widened ways lanes marks }
{
    (lanes == 1) & (ways == 3) & has(marks, CENTRAL_LANE)
}

// The reach as it counts.
fn counted_reach(ways: u8, lanes: u8, reach: u8, marks: u8) -> usize
    ensures { result ≡ counted_reach ways lanes reach marks }
{
    if is_widened(ways, lanes, marks) {
        usize::from(reach) + 4
    } else {
        usize::from(reach)
    }
}

// The level that a street with a bike lane has as mixed traffic. Its lanes are those of one direction.
fn mixed_beside(ways: u8, lanes: u8, speed: u8, marks: u8) -> u8
    ensures { result ≡ mixed_beside ways lanes speed marks }
{
    let all = if ways == 3 {
        2 * usize::from(lanes)
    } else {
        usize::from(lanes)
    };
    mixed_level(all, speed, marks)
}

// The mixed level, where it is lower, governed by measure 5.
fn lower_of(mixed: u8, grade: Grade) -> Grade
    ensures { result ≡ lower_of mixed grade }
{
    if mixed < grade.level {
        return Grade {
            level: mixed,
            measure: 5,
        };
    }
    grade
}

#[tactic(auto, unfolding(crate::specs::NewerSegment::newer_grade, crate::specs::Segment::older_grade))]
pub fn newer_grade(ways: u8, form: Form) -> Grade
    ensures { result ≡ newer_grade ways form }
{
    match form {
        Form::BesideParking {
            lanes,
            speed,
            reach,
            marks,
        } => {
            let counted = counted_reach(ways, lanes, reach, marks);
            let grade = grade_of_four(parking_levels(lanes, speed, counted, marks));
            lower_of(mixed_beside(ways, lanes, speed, marks), grade)
        }
        Form::BikeLane {
            lanes,
            speed,
            reach,
            marks,
        } => {
            let counted = counted_reach(ways, lanes, reach, marks);
            let grade = grade_of_four(bike_lane_levels(lanes, speed, counted, marks));
            lower_of(mixed_beside(ways, lanes, speed, marks), grade)
        }
        _ => older_grade(form),
    }
}

// The level alone: a search asks it of every street that it meets, and needs no measure.
#[tactic(auto, unfolding(crate::specs::NewerSegment::newer_grade, crate::specs::Segment::older_grade, crate::specs::Segment::grade_of_four))]
pub fn newer_level(ways: u8, form: Form) -> u8
    ensures { result ≡ (newer_grade ways form).level }
{
    match form {
        Form::BesideParking {
            lanes,
            speed,
            reach,
            marks,
        } => {
            let counted = counted_reach(ways, lanes, reach, marks);
            let level = greatest_of(parking_levels(lanes, speed, counted, marks));
            level.min(mixed_beside(ways, lanes, speed, marks))
        }
        Form::BikeLane {
            lanes,
            speed,
            reach,
            marks,
        } => {
            let counted = counted_reach(ways, lanes, reach, marks);
            let level = greatest_of(bike_lane_levels(lanes, speed, counted, marks));
            level.min(mixed_beside(ways, lanes, speed, marks))
        }
        _ => older_level(form),
    }
}
