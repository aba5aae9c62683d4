// The slack of every net, and the worst of them.
ghost use Rattle.std.specs.Prelude.{◌≡◌, ◌+◌, ◌*◌, ◌≤◌, length};
ghost use Rattle.timing.specs.Areas.{held_by};
ghost use Rattle.timing.specs.Passes.{LeastEntry};
ghost use Rattle.timing.specs.SlackFigures.{slack_figure, LeastOfRow};
ghost use Rattle.units.specs.Steps.{step_count};

use crate::answers::{SignalRecord, row};
use crate::entries::{entry_of, figure};
use units::senses::Sense;

// The slack of a signal against a required time; none if either is missing.
pub fn slack_of<S: Sense>(signal: SignalRecord, required: Option<i32>) -> Option<i64>
    ensures { result ≡ slack_figure S.Sense.order (held_by signal) required }
{
    Some(S::slack(signal.kept_time()?, required?))
}

// The least slack of the signals that a net keeps.
fn net_slack<S: Sense>(signals: &[SignalRecord], required: &[i32], net: usize) -> Option<i64>
    requires signals { step_count * net + step_count ≤ length signals.now }
    requires required { step_count * net + step_count ≤ length required.now }
    ensures { LeastOfRow S.Sense.order signals.now required.now net result }
{
    row(signals, net)
        .iter()
        .zip(row(required, net))
        .filter_map(|(signal, required)| slack_of::<S>(*signal, figure(*required)))
        .min()
}

// The slack, if an entry can hold it.
fn fitting(slack: i64) -> Option<i32> {
    figure(i32::try_from(slack).ok()?)
}

// The least slack of a net among those that an entry can hold.
fn least_fitting<S: Sense>(signals: &[SignalRecord], required: &[i32], net: usize) -> Option<i32>
    requires signals { step_count * net + step_count ≤ length signals.now }
    requires required { step_count * net + step_count ≤ length required.now }
{
    row(signals, net)
        .iter()
        .zip(row(required, net))
        .filter_map(|(signal, required)| fitting(slack_of::<S>(*signal, figure(*required))?))
        .min()
}

// The least slack of a net for its entry. Times and required times are so small that a slack always fits.
fn held_slack<S: Sense>(signals: &[SignalRecord], required: &[i32], net: usize) -> Option<i32>
    requires signals { step_count * net + step_count ≤ length signals.now }
    requires required { step_count * net + step_count ≤ length required.now }
{
    let least = net_slack::<S>(signals, required, net)?;
    match fitting(least) {
        Some(least) => Some(least),
        None => least_fitting::<S>(signals, required, net),
    }
}

// Fills the slacks, one entry for each net.
pub fn fill_slacks<S: Sense>(signals: &[SignalRecord], required: &[i32], slacks: &mut [i32])
    requires signals { step_count * length slacks.old ≤ length signals.now }
    requires required { step_count * length slacks.old ≤ length required.now }
{
    for (net, slack) in slacks.iter_mut().enumerate() {
        *slack = entry_of(held_slack::<S>(signals, required, net));
    }
}

// The worst slack of all nets.
pub fn worst_slack(slacks: &[i32]) -> Option<i32>
    ensures { LeastEntry (length slacks.now) slacks.now result }
{
    slacks.iter().filter_map(|slack| figure(*slack)).min()
}
