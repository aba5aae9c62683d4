// A model over another, with every delay at a percentage and no larger than a delay may be.
ghost use Rattle.std.specs.Prelude.{◌≡◌, ◌≤◌};
ghost use Rattle.models.specs.Calls.{PercentSet};
ghost use Rattle.models.specs.Derating.{derated, max_percent};
ghost use Rattle.models.specs.Meanings.{derated_lawful};

use crate::delay_model::{DelayModel, MAX_DELAY};
use crate::faults::ModelFault;

const MAX_PERCENT: u32 = 1000;

#[derive(Drop)]
pub struct Derated<M> {
    model: M,
    percent: u32,
    ghost low: { 1 ≤ percent },
    ghost high: { percent ≤ max_percent },
}

impl<M> Derated<M> {
    // The model as it is, at 100 percent.
    pub fn new(model: M) -> Derated<M>
        ensures model { result.model ≡ model }
        ensures percent { result.percent ≡ 100 }
    {
        Derated {
            model,
            percent: 100,
        }
    }

    // Sets the percentage, from 1 to 1000.
    pub fn set_percent(&mut self, percent: u32) -> Result<(), ModelFault>
        ensures model { self.new.model ≡ self.old.model }
        ensures percent { PercentSet self.old.percent percent result self.new.percent }
    {
        if !(1..=MAX_PERCENT).contains(&percent) {
            return Err(ModelFault::Percent(percent));
        }
        self.percent = percent;
        Ok(())
    }
}

impl<M: DelayModel> DelayModel for Derated<M> {
    ghost meaning = { λ d. derated d.percent (M.DelayModel.meaning d.model) };

    ghost lawful = { λ x. derated_lawful x.percent (M.DelayModel.meaning x.model) (M.DelayModel.lawful x.model) };

    fn count(&self) -> u8 {
        self.model.count()
    }

    fn figures(&self, kind: u8, step: u8) -> (u32, u8) {
        let (delay, output_step) = self.model.figures(kind, step);
        ((delay * self.percent / 100).min(MAX_DELAY), output_step)
    }
}
