// Why a model refuses.
ghost use Rattle.std.specs.Prelude.{◌≡◌};
ghost use Rattle.models.specs.Faults.{refusal_of};

use crate::delay_model::MAX_KINDS;
use units::refusals::{Layer, Refusal};

#[derive(Clone, Copy, PartialEq, Eq, Debug)]
pub enum ModelFault {
    // 32 kinds are held already
    KindsFull,
    // fewer than 2 or more than 8 points: their count
    PointCount(usize),
    // the first step is not 0, or the last is not 31: the point
    EndStep(usize),
    // the step is not above the one before: the point
    StepOrder(usize),
    // the delay is below the one before: the point
    DelayFalls(usize),
    // the output step is below the one before: the point
    OutputStepFalls(usize),
    // the output step is above 31: the point, or 0 for a fixed kind
    OutputStepTooLarge(usize),
    // the percentage is outside 1 to 1000: the percentage
    Percent(u32),
}

// What the refusal names.
impl From<ModelFault> for Refusal {
    ghost from_gives = { λ fault refusal. refusal ≡ refusal_of fault };

    fn from(fault: ModelFault) -> Refusal {
        let (number, place) = match fault {
            ModelFault::KindsFull => (1, MAX_KINDS),
            ModelFault::PointCount(count) => (2, count),
            ModelFault::EndStep(point) => (3, point),
            ModelFault::StepOrder(point) => (4, point),
            ModelFault::DelayFalls(point) => (5, point),
            ModelFault::OutputStepFalls(point) => (6, point),
            ModelFault::OutputStepTooLarge(point) => (7, point),
            ModelFault::Percent(percent) => (8, percent as usize),
        };
        Refusal {
            layer: Layer::Model,
            number,
            place,
        }
    }
}
