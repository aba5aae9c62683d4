// Why a block file is refused.
ghost use Rattle.std.specs.Prelude.{◌≡◌};
ghost use Rattle.blockfile.specs.declared.faults.LoadCause.{LoadCause};
ghost use Rattle.blockfile.specs.Faults.{reader_refusal, cause_refusal, refusal_of};

use models::faults::ModelFault;
use network::faults::DraftFault;
use units::refusals::{Layer, Refusal};

#[derive(Clone, Copy, PartialEq, Eq, Debug)]
pub enum ReaderFault {
    // the map or a known field is missing: the file's length
    Truncated(usize),
    UnknownTag(u8),
    // a bit stands that no field has: the map
    UnknownBit(u8),
    // a transition without a launch time: the map
    TransitionWithoutLaunch(u8),
}

// The layer that refused, with its fault whole.
#[derive(Clone, Copy, PartialEq, Eq, Debug)]
pub enum LoadCause {
    Reader(ReaderFault),
    Draft(DraftFault),
    Model(ModelFault),
}

// The offset of the record that is refused, and why it is.
#[derive(Clone, Copy, PartialEq, Eq, Debug)]
pub struct LoadFault {
    pub offset: usize,
    pub cause: LoadCause,
}

impl From<ReaderFault> for LoadCause {
    ghost from_gives = { λ fault cause. cause ≡ LoadCause.Reader fault };

    fn from(fault: ReaderFault) -> LoadCause {
        LoadCause::Reader(fault)
    }
}

impl From<DraftFault> for LoadCause {
    ghost from_gives = { λ fault cause. cause ≡ LoadCause.Draft fault };

    fn from(fault: DraftFault) -> LoadCause {
        LoadCause::Draft(fault)
    }
}

impl From<ModelFault> for LoadCause {
    ghost from_gives = { λ fault cause. cause ≡ LoadCause.Model fault };

    fn from(fault: ModelFault) -> LoadCause {
        LoadCause::Model(fault)
    }
}

// What each refusal names.
impl From<ReaderFault> for Refusal {
    ghost from_gives = { λ fault refusal. refusal ≡ reader_refusal fault };

    fn from(fault: ReaderFault) -> Refusal {
        let (number, place) = match fault {
            ReaderFault::Truncated(len) => (24, len),
            ReaderFault::UnknownTag(tag) => (25, tag as usize),
            ReaderFault::UnknownBit(map) => (26, map as usize),
            ReaderFault::TransitionWithoutLaunch(map) => (27, map as usize),
        };
        Refusal {
            layer: Layer::Reader,
            number,
            place,
        }
    }
}

impl From<LoadCause> for Refusal {
    ghost from_gives = { λ cause refusal. refusal ≡ cause_refusal cause };

    fn from(cause: LoadCause) -> Refusal {
        match cause {
            LoadCause::Reader(fault) => Refusal::from(fault),
            LoadCause::Draft(fault) => Refusal::from(fault),
            LoadCause::Model(fault) => Refusal::from(fault),
        }
    }
}

impl From<LoadFault> for Refusal {
    ghost from_gives = { λ fault refusal. refusal ≡ refusal_of fault };

    fn from(fault: LoadFault) -> Refusal {
        Refusal::from(fault.cause)
    }
}
