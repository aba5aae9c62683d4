// A model whose kinds have one delay and one output step each.
ghost use Rattle.std.specs.Prelude.{◌≡◌, ℕ, refl};
ghost use Rattle.models.specs.Calls.{fixed_in, FixedAdded};
ghost use Rattle.models.specs.FixedKinds.{figures_of};
ghost use Rattle.models.specs.Kinds.{fixed_figures, fixed_meaning};
ghost use Rattle.models.specs.Meanings.{fixed_kind_lawful};

mod kind;

use crate::delay_model::DelayModel;
use crate::faults::ModelFault;
use crate::kinds::{Kind, Kinds};
use kind::FixedKind;
use units::steps::LAST_STEP;

impl Kind for FixedKind {
    ghost Given = { ℕ × ℕ };

    ghost given = { figures_of };

    ghost figures = { fixed_figures };

    ghost Rule = { λ given step figures. figures ≡ given };

    ghost lawful = { λ kind. fixed_kind_lawful (figures_of kind) kind.delay_fits kind.output_step_fits };

    ghost follows_rule = { λ kind step l. refl };

    fn figures(&self, _step: u8) -> (u32, u8) {
        (self.delay, self.output_step)
    }
}

pub type Fixed = Kinds<FixedKind>;

impl Fixed {
    // One kind more; answers its number.
    pub fn add(&mut self, delay: u16, output_step: u8) -> Result<u8, ModelFault>
        ensures added { FixedAdded (fixed_in self.old) delay output_step result (fixed_in self.new) }
        ensures means { ⟦<Fixed as DelayModel>⟧.meaning self.new ≡ fixed_meaning (fixed_in self.new) }
    {
        let number = self.next_number()?;
        if output_step > LAST_STEP {
            return Err(ModelFault::OutputStepTooLarge(0));
        }
        self.push(FixedKind {
            delay: u32::from(delay),
            output_step,
        });
        Ok(number)
    }
}
