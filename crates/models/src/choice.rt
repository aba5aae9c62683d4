// One of two models, chosen while a program runs.
ghost use Rattle.either.specs.Either.{either};
ghost use Rattle.either.specs.declared.Either.TheVariants.{Left, Right};

use crate::delay_model::DelayModel;
use either::{Either, for_both};

impl<L: DelayModel, R: DelayModel> DelayModel for Either<L, R> {
    ghost meaning = { either L.DelayModel.meaning R.DelayModel.meaning };

    ghost lawful = { elim [ Left l ↦ L.DelayModel.lawful l | Right r ↦ R.DelayModel.lawful r ] };

    fn count(&self) -> u8 {
        for_both!(self, model => model.count())
    }

    fn figures(&self, kind: u8, step: u8) -> (u32, u8) {
        for_both!(self, model => model.figures(kind, step))
    }
}
