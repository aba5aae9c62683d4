// Why a timing is refused.
ghost use Rattle.std.specs.Prelude.{◌≡◌};
ghost use Rattle.timing.specs.Faults.{refusal_of};

use units::refusals::{Layer, Refusal};

#[derive(Clone, Copy, PartialEq, Eq, Debug)]
pub enum TimingFault {
    // the area, 1 to 4, as the refusal names its place
    AreaTooShort(u8),
    // the lowest arc whose kind the model does not hold
    KindNotHeld(u16),
}

// What the refusal names.
impl From<TimingFault> for Refusal {
    ghost from_gives = { λ fault refusal. refusal ≡ refusal_of fault };

    fn from(fault: TimingFault) -> Refusal {
        let (number, place) = match fault {
            TimingFault::AreaTooShort(area) => (22, area as usize),
            TimingFault::KindNotHeld(arc) => (23, arc as usize),
        };
        Refusal {
            layer: Layer::Timing,
            number,
            place,
        }
    }
}
