// The figures of a kind between its points.
ghost use Rattle.std.specs.Prelude.{◌≡◌, ◌+◌, ◌-◌, ◌*◌, ◌/◌, ◌<◌, ◌≤◌};
ghost use Rattle.units.specs.Steps.{last_step};
ghost use Rattle.models.specs.Meaning.{max_delay};
ghost use Rattle.models.specs.Kinds.{figures_at, Reaches, Tabulated, DelaysFit};
ghost use Rattle.models.specs.PointRows.{WellFormed};

use crate::point::Point;
use std::array;
use units::steps::STEPS;

// The part of the way from one figure up to another, rounded down.
fn part_way(low: u32, high: u32, past: u32, span: u32) -> u32
    requires rises { (low ≤ high) × (high ≤ max_delay) }
    requires past { (past ≤ span) × (past ≤ last_step) }
    requires span { 0 < span }
    ensures value { result ≡ low + (high - low) * past / span }
    ensures bound { result ≤ high }
{
    low + (high - low) * past / span
}

// The first point after the first that reaches the step. Here points are lent, before a curve's type says that they are
// well formed, so it is asked.
fn reaching(points: &[Point], step: u8) -> usize
    requires formed { WellFormed points.now }
    requires step { step ≤ last_step }
    ensures { Reaches points.now step result }
{
    let last = points.len() - 1;
    match points[1..last].iter().position(|point| point.step >= step) {
        Some(i) => i + 1,
        None => last,
    }
}

// The delay and the output step at a step.
fn interpolate(points: &[Point], step: u8) -> (u32, u8)
    requires formed { WellFormed points.now }
    requires step { step ≤ last_step }
    ensures figures { result ≡ figures_at points.now step }
    ensures bound { result.0 ≤ max_delay }
{
    let i = reaching(points, step);
    // By index: with `array_windows().find(..)`, which window is found stayed open.
    let (lower, upper) = (points[i - 1], points[i]);
    let past = u32::from(step - lower.step);
    let span = u32::from(upper.step - lower.step);
    let delay = part_way(u32::from(lower.delay), u32::from(upper.delay), past, span);
    let output_step = part_way(
        u32::from(lower.output_step),
        u32::from(upper.output_step),
        past,
        span,
    );
    (delay, output_step as u8)
}

// The figures at each step.
pub fn tabulate(points: &[Point]) -> [(u32, u8); STEPS]
    requires { WellFormed points.now }
    ensures figures { Tabulated points.now result }
    ensures bound { DelaysFit points.now }
{
    array::from_fn(|step| interpolate(points, step as u8))
}
