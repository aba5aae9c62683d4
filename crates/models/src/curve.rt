// One kind by its points, with its figures at every step worked out.
ghost use Rattle.std.specs.Prelude.{◌≤◌, length};
ghost use Rattle.units.specs.Steps.{last_step};
ghost use Rattle.models.specs.PointRows.{max_points};
ghost use Rattle.models.specs.Kinds.{point_step, point_delay, point_output_step, RisesBy, AtMost, Tabulated, DelaysFit};

use crate::point::Point;
use crate::point_tests::MAX_POINTS;
use arrayvec::ArrayVec;
use units::steps::STEPS;

pub mod making;

#[derive(Drop)]
pub struct Curve {
    points: ArrayVec<Point, MAX_POINTS>,
    figures: [(u32, u8); STEPS],
    ghost few: { length points.items ≤ max_points },
    ghost steps: { RisesBy 1 point_step points.items },
    ghost delays: { RisesBy 0 point_delay points.items },
    ghost output_steps: { RisesBy 0 point_output_step points.items },
    ghost output_steps_fit: { AtMost last_step point_output_step points.items },
    ghost tabulated: { Tabulated points.items figures },
    ghost delays_fit: { DelaysFit points.items },
}
