// The interface of a delay model: its count of kinds, and the figures of a kind at a step.
ghost use Rattle.std.specs.Prelude.{◌≡◌, ◌≤◌};
ghost use Rattle.units.specs.Steps.{last_step};
ghost use Rattle.models.specs.Meaning.{Meaning, Lawful, max_delay};

// The most kinds that a model holds.
pub const MAX_KINDS: usize = 32;

// The largest delay that a model answers.
pub const MAX_DELAY: u32 = 65535;

pub trait DelayModel {
    ghost meaning: { Self → Meaning };

    // How many kinds the model holds.
    fn count(&self) -> u8
        ensures { result ≡ (meaning self.now).count };

    // The delay and the output step of a kind at a step; 0 and 0 for a kind not held or a step past the last.
    fn figures(&self, kind: u8, step: u8) -> (u32, u8)
        ensures delay { result.0 ≡ (meaning self.now).delay kind step }
        ensures output_step { result.1 ≡ (meaning self.now).output_step kind step };

    // Ranges, 0 where nothing is held, and no figure that falls as the step rises.
    ghost lawful: { (x : Self) → Lawful (meaning x) };
}

// The question, with the ranges that the law gives.
pub fn ask<M: DelayModel>(model: &M, kind: u8, step: u8) -> (u32, u8)
    ensures delay { result.0 ≡ (M.DelayModel.meaning model.now).delay kind step }
    ensures output_step { result.1 ≡ (M.DelayModel.meaning model.now).output_step kind step }
    ensures delay_fits { result.0 ≤ max_delay }
    ensures output_step_fits { result.1 ≤ last_step }
{
    model.figures(kind, step)
}
