// The tests of a launch and of a limit, each with rows of its own: refusal 12.
ghost use Rattle.units.specs.Refusals.{Outcome};
ghost use Rattle.network.specs.Faults.{refusal_of};
ghost use Rattle.network.specs.Figures.{launch_rows, limit_rows, LaunchFits, LimitFits};

use crate::faults::DraftFault;
use paths::blocks::{LARGEST_LIMIT, LATEST_LAUNCH};
use units::steps::LONGEST_TRANSITION;

pub fn test_launch(time: u32, transition: u16) -> Result<(), DraftFault>
    ensures { Outcome refusal_of (launch_rows time transition) result (λ _. LaunchFits time transition) (Unit {0}) }
{
    if time > LATEST_LAUNCH {
        return Err(DraftFault::LaunchTooLate(time));
    }
    if transition > LONGEST_TRANSITION {
        return Err(DraftFault::TransitionTooLong(transition));
    }
    Ok(())
}

pub fn test_limit(value: u32) -> Result<(), DraftFault>
    ensures { Outcome refusal_of (limit_rows value) result (λ _. LimitFits value) (Unit {0}) }
{
    if value > LARGEST_LIMIT {
        return Err(DraftFault::LimitTooLarge(value));
    }
    Ok(())
}
