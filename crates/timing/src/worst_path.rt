// A complete path of the worst slack: its end, and from there back to its start.
ghost use Rattle.std.specs.Prelude.{◌+◌, ◌*◌, ◌≤◌, length};
ghost use Rattle.units.specs.Steps.{step_count};
ghost use Rattle.paths.specs.Blocks.{max_path};
ghost use Rattle.timing.specs.WorstPaths.{EndStep};

use crate::answers::{NO_SIGNAL, SignalRecord, place, row};
use crate::circuit::Circuit;
use crate::required::limit_of;
use crate::slacks::slack_of;
use paths::blocks::MAX_PATH;
use units::senses::Sense;

// A step at which the net's signal has that slack against the limit, where there is one.
fn end_step<S: Sense>(
    signals: &[SignalRecord],
    net: usize,
    limit: Option<i32>,
    worst: i32,
) -> Option<u8>
    requires { step_count * net + step_count ≤ length signals.now }
    ensures { EndStep S.Sense.order signals.now net limit worst result }
{
    row(signals, net)
        .iter()
        .position(|signal| slack_of::<S>(*signal, limit) == Some(i64::from(worst)))
        .map(|step| step as u8)
}

// A net and a step whose signal has the worst slack against the net's limit.
pub fn end_of<S: Sense>(
    circuit: &Circuit<'_>,
    signals: &[SignalRecord],
    worst: i32,
) -> Option<(u16, u8)>
    requires { step_count * length circuit.now.nets.now ≤ length signals.now }
{
    // No `find_map`: what it asks of its closure stayed open.
    for (n, net) in circuit.nets.iter().enumerate() {
        if let Some(step) = end_step::<S>(signals, n, limit_of::<S>(*net), worst) {
            return Some((n as u16, step));
        }
    }
    None
}

// The record of a net and a step.
fn record_at(signals: &[SignalRecord], net: u16, step: u8) -> SignalRecord {
    signals.get(place(net, step)).copied().unwrap_or(NO_SIGNAL)
}

// Takes the arcs from the end back to a launch; answers the start net and the number of arcs.
fn trace_back(
    circuit: &Circuit<'_>,
    signals: &[SignalRecord],
    end: u16,
    step: u8,
    path: &mut [u16],
) -> (u16, u16)
    requires { max_path ≤ length path.old }
    ensures { result.1 ≤ max_path }
{
    let mut net = end;
    let mut signal = record_at(signals, end, step);
    for (count, entry) in path[..MAX_PATH].iter_mut().enumerate() {
        // The mark of a launch is the number of no arc.
        let Some(arc) = circuit.arcs.get(usize::from(signal.arc)) else {
            return (net, count as u16);
        };
        *entry = signal.arc;
        net = arc.tail;
        signal = record_at(signals, net, signal.step);
    }
    (net, MAX_PATH as u16)
}

// Writes the arcs of a path to the end, from its start on; answers the start net and the number of arcs.
pub fn trace(
    circuit: &Circuit<'_>,
    signals: &[SignalRecord],
    end: u16,
    step: u8,
    path: &mut [u16],
) -> (u16, u16)
    requires { max_path ≤ length path.old }
{
    let (start, count) = trace_back(circuit, signals, end, step, path);
    path[..usize::from(count)].reverse();
    (start, count)
}
