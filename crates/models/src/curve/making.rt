// A curve made of points, and read.
ghost use Rattle.std.specs.Prelude.{◌≡◌, List};
ghost use Rattle.units.specs.Refusals.{Outcome};
ghost use Rattle.models.specs.declared.point.Point.{Point};
ghost use Rattle.models.specs.Curves.{points_of};
ghost use Rattle.models.specs.Faults.{refusal_of};
ghost use Rattle.models.specs.Kinds.{figures_at, Interpolates};
ghost use Rattle.models.specs.Meanings.{sound_curve, sound_lawful, sound_interpolates};
ghost use Rattle.models.specs.PointRows.{point_rows};

use super::Curve;
use crate::faults::ModelFault;
use crate::interpolation::tabulate;
use crate::kinds::Kind;
use crate::point::Point;
use crate::point_tests::test_points;
use arrayvec::ArrayVec;

impl Curve {
    pub fn new(points: &[Point]) -> Result<Curve, ModelFault>
        ensures { Outcome refusal_of (point_rows points.now) result (λ c. points_of c ≡ points.now) (Unit {0}) }
    {
        test_points(points)?;
        Ok(Curve {
            points: ArrayVec::try_from(points).unwrap(),
            figures: tabulate(points),
        })
    }

    // The points of the kind.
    pub fn points(&self) -> &[Point]
        ensures { result.now ≡ points_of self.now }
    {
        &self.points
    }
}

impl Kind for Curve {
    ghost Given = { List Point };

    ghost given = { points_of };

    ghost figures = { figures_at };

    ghost Rule = { Interpolates };

    ghost lawful = { λ c. sound_lawful (points_of c) (sound_curve c) };

    ghost follows_rule = { λ c step l. sound_interpolates (points_of c) step (sound_curve c) };

    fn figures(&self, step: u8) -> (u32, u8) {
        self.figures[usize::from(step)]
    }
}
