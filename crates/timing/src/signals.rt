// The rows of the signals' area: record 32 n + s for net n and step s.
ghost use Rattle.std.specs.Prelude.{◌≡◌, ◌+◌, ◌*◌, ◌≤◌, ◌<◌, length};
ghost use Rattle.units.specs.Steps.{step_count, last_step};
ghost use Rattle.timing.specs.Areas.{record_at};
ghost use Rattle.timing.specs.Offers.{worse_of, turn_of, Pruned, RowPruned};

use crate::answers::{NO_SIGNAL, SignalRecord, place};
use units::senses::Sense;
use units::steps::LAST_STEP;

impl SignalRecord {
    // Takes a signal of the same step, unless one is kept whose time is at least as bad.
    pub(crate) fn offer<S: Sense>(&mut self, new: SignalRecord)
        ensures { self.new ≡ worse_of S.Sense.order self.old new }
    {
        if !(self.kept && S::as_bad(self.time, new.time)) {
            *self = new;
        }
    }

    // Takes the signal off if the worst time of the worse steps is as bad; answers the worst time up to this step.
    fn prune<S: Sense>(&mut self, worst: Option<u32>) -> Option<u32>
        ensures { Pruned S.Sense.order self.old worst self.new result }
    {
        let Some(time) = self.kept_time() else {
            return worst;
        };
        if worst.is_some_and(|worst| S::as_bad(worst, time)) {
            *self = NO_SIGNAL;
            return worst;
        }
        Some(time)
    }
}

// The step of a turn, when the steps are gone through from the worst on: a range and its reverse are two types.
fn step_of_turn<S: Sense>(turn: u8) -> u8
    requires { turn < step_count }
    ensures turn { turn_of S.Sense.order result ≡ turn }
    ensures fits { result ≤ last_step }
{
    if S::is_late() { LAST_STEP - turn } else { turn }
}

// Takes off the signals of a net that another one covers.
pub fn prune_row<S: Sense>(signals: &mut [SignalRecord], net: u16)
    requires { step_count * net + step_count ≤ length signals.old }
    ensures { RowPruned S.Sense.order net step_count (record_at signals.old) (record_at signals.new) }
{
    let mut worst = None;
    for turn in 0..=LAST_STEP {
        let step = step_of_turn::<S>(turn);
        worst = signals[place(net, step)].prune::<S>(worst);
    }
}
