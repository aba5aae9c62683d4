// The tests of the points of a kind.
ghost use Rattle.std.specs.Prelude.{◌≡◌, Bool, MatchOption};
ghost use Rattle.units.specs.Refusals.{Outcome};
ghost use Rattle.models.specs.declared.point.Point.{Point};
ghost use Rattle.models.specs.Faults.{refusal_of};
ghost use Rattle.models.specs.PointRows.{NoneFails, FirstFails, point_rows, WellFormed};

use crate::faults::ModelFault;
use crate::point::Point;
use units::steps::LAST_STEP;

// The fewest and the most points of a kind.
pub const MIN_POINTS: usize = 2;

pub const MAX_POINTS: usize = 8;

// The first point that fails against the point before it.
fn first_failing<F: Fn(&Point, &Point) -> bool>(points: &[Point], fails: F) -> Option<usize>
    requires { F.IsAlwaysCallable fails }
    ensures { (test : Point → Point → Bool) → ((before here : _) (r : Bool) → F.post fails before here r → r ≡ test before.now here.now)
        → MatchOption result (NoneFails 1 test points.now) (λ i. FirstFails 1 test points.now i) }
{
    let i = points
        .array_windows::<2>()
        .position(|[before, here]| fails(before, here))?;
    Some(i + 1)
}

// Tests the points of a kind.
pub fn test_points(points: &[Point]) -> Result<(), ModelFault>
    ensures { Outcome refusal_of (point_rows points.now) result (λ _. WellFormed points.now) (Unit {0}) }
{
    let count = points.len();
    if !(MIN_POINTS..=MAX_POINTS).contains(&count) {
        return Err(ModelFault::PointCount(count));
    }
    if points[0].step != 0 {
        return Err(ModelFault::EndStep(0));
    }
    if points[count - 1].step != LAST_STEP {
        return Err(ModelFault::EndStep(count - 1));
    }
    if let Some(i) = first_failing(points, |before, here| here.step <= before.step) {
        return Err(ModelFault::StepOrder(i));
    }
    if let Some(i) = first_failing(points, |before, here| here.delay < before.delay) {
        return Err(ModelFault::DelayFalls(i));
    }
    if let Some(i) = first_failing(points, |before, here| here.output_step < before.output_step) {
        return Err(ModelFault::OutputStepFalls(i));
    }
    if let Some(i) = points
        .iter()
        .position(|point| point.output_step > LAST_STEP)
    {
        return Err(ModelFault::OutputStepTooLarge(i));
    }
    Ok(())
}
