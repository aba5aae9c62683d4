// A model whose kinds are given by points.
ghost use Rattle.std.specs.Prelude.{◌≡◌, ◌<◌, ◌≤◌, [], length, MatchOption, slice_index_or};
ghost use Rattle.models.specs.Calls.{kinds_in, PointsAdded};
ghost use Rattle.models.specs.Kinds.{points_meaning};

use crate::curve::Curve;
use crate::delay_model::DelayModel;
use crate::faults::ModelFault;
use crate::kinds::Kinds;
use crate::point::Point;

pub type Points = Kinds<Curve>;

impl Points {
    // One kind more; answers its number.
    pub fn add(&mut self, points: &[Point]) -> Result<u8, ModelFault>
        ensures added { PointsAdded (kinds_in self.old) points.now result (kinds_in self.new) }
        ensures means { ⟦<Points as DelayModel>⟧.meaning self.new ≡ points_meaning (kinds_in self.new) }
    {
        let number = self.next_number()?;
        self.push(Curve::new(points)?);
        Ok(number)
    }

    // The points of a kind; none for a kind that is not held.
    pub fn points(&self, kind: u8) -> Option<&[Point]>
        ensures means { ⟦<Points as DelayModel>⟧.meaning self.now ≡ points_meaning (kinds_in self.now) }
        ensures given { MatchOption result (length (kinds_in self.now) ≤ kind) (λ ps. (kind < length (kinds_in self.now)) × (ps.now ≡ slice_index_or (kinds_in self.now) kind [])) }
    {
        Some(self.get(kind)?.points())
    }
}
