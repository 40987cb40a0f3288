// The soft value of one part of a sample: a reading, rounded and held, or a gap.
#![tactic(auto)]

mod steps;

ghost use Rattle.std.specs.Prelude.{◌≡◌};
ghost use Rattle.readings.specs.Parts.{part_of, Sound, soft_part};

use steps::in_steps;

// A part is a reading or, where it is a NaN, a gap. An enum of its own and no `Option`, since the rules name this form.
#[derive(Clone, Copy)]
pub enum Part {
    Reading(f32),
    Gap,
}

fn part_of(x: f32) -> Part
    ensures { result ≡ part_of x }
{
    if x.is_nan() {
        Part::Gap
    } else {
        Part::Reading(x)
    }
}

// A gap says nothing for either bit.
fn soft_value(part: Part) -> i16
    requires { Sound part }
    ensures { result ≡ soft_part part }
{
    match part {
        Part::Reading(x) => in_steps(x),
        Part::Gap => 0,
    }
}

pub fn quantise_part(x: f32) -> i16
    ensures { result ≡ soft_part (part_of x) }
{
    soft_value(part_of(x))
}
