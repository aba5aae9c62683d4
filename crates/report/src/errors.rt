// Why a block file has no timing.
ghost use Rattle.std.specs.Prelude.{◌≡◌};
ghost use Rattle.report.specs.declared.errors.TimingError.{TimingError};

use block::faults::TimeFault;
use blockfile::faults::LoadFault;
use std::alloc::AllocError;

#[derive(Debug, Drop)]
pub enum TimingError {
    OutOfMemory(AllocError),
    // the file is refused
    Load(LoadFault),
    // its block is refused
    Time(TimeFault),
}

impl From<AllocError> for TimingError {
    ghost from_gives = { λ error timing. timing ≡ TimingError.OutOfMemory error };

    fn from(error: AllocError) -> TimingError {
        TimingError::OutOfMemory(error)
    }
}

impl From<LoadFault> for TimingError {
    ghost from_gives = { λ fault timing. timing ≡ TimingError.Load fault };

    fn from(fault: LoadFault) -> TimingError {
        TimingError::Load(fault)
    }
}

impl From<TimeFault> for TimingError {
    ghost from_gives = { λ fault timing. timing ≡ TimingError.Time fault };

    fn from(fault: TimeFault) -> TimingError {
        TimingError::Time(fault)
    }
}
