// The forward pass: signals from the launches along the arcs, pruned net by net.
ghost use Rattle.std.specs.Prelude.{◌+◌, ◌*◌, ◌<◌, ◌≤◌, length};
ghost use Rattle.units.specs.Steps.{step_count};
ghost use Rattle.paths.specs.Blocks.{max_arcs};
ghost use Rattle.timing.specs.Areas.{record_at};
ghost use Rattle.timing.specs.Offers.{AfterOffers, LaunchOffer};

use crate::answers::{LAUNCHED, NO_SIGNAL, SignalRecord, place};
use crate::circuit::Circuit;
use crate::signals::prune_row;
use models::delay_model::{DelayModel, ask};
use paths::blocks::{Arc, Launch};
use units::senses::Sense;
use units::steps::{LAST_STEP, STEPS, step_of};

// Offers a launch to the row of its net.
fn offer_launch<S: Sense>(launch: Option<Launch>, net: u16, signals: &mut [SignalRecord])
    requires { step_count * net + step_count ≤ length signals.old }
    ensures { AfterOffers S.Sense.order (LaunchOffer launch net) (record_at signals.old) (record_at signals.new) }
{
    if let Some(launch) = launch {
        let signal = SignalRecord::kept(launch.time, LAUNCHED, 0);
        signals[place(net, step_of(launch.transition))].offer::<S>(signal);
    }
}

// Carries the signal of one step at the tail over an arc; answers how many it carried, for the counter of the whole pass.
fn carry_signal<M: DelayModel, S: Sense>(
    model: &M,
    arc: Arc,
    number: u16,
    step: u8,
    signals: &mut [SignalRecord],
) -> u32
    requires tail { step_count * arc.tail + step_count ≤ length signals.old }
    requires head { step_count * arc.head + step_count ≤ length signals.old }
    requires step { step < step_count }
    ensures { result ≤ 1 }
{
    let Some(time) = signals[place(arc.tail, step)].kept_time() else {
        return 0;
    };
    let (delay, output_step) = ask(model, arc.kind, step);
    let signal = SignalRecord::kept(time.saturating_add(delay), number, step);
    signals[place(arc.head, output_step)].offer::<S>(signal);
    1
}

// Carries the signals at the tail over an arc; answers how many there were.
fn carry_arc<M: DelayModel, S: Sense>(
    model: &M,
    arc: Arc,
    number: u16,
    signals: &mut [SignalRecord],
) -> u32
    requires tail { step_count * arc.tail + step_count ≤ length signals.old }
    requires head { step_count * arc.head + step_count ≤ length signals.old }
    ensures { result ≤ step_count }
{
    let mut carried = 0;
    // The step is what the model is asked at, and not an index alone.
    for step in 0..=LAST_STEP {
        carried += carry_signal::<M, S>(model, arc, number, step, signals);
    }
    carried
}

// Carries the signals of a net over each arc out of it; answers how many it carried.
fn carry_fan_out<M: DelayModel, S: Sense>(
    model: &M,
    circuit: &Circuit<'_>,
    net: u16,
    signals: &mut [SignalRecord],
) -> u32
    requires net { net < length circuit.now.nets.now }
    requires room { step_count * length circuit.now.nets.now ≤ length signals.old }
    ensures { result ≤ step_count * max_arcs }
{
    let mut carried = 0;
    for &number in circuit.fan_out.arcs_out(net) {
        // Past the arcs there is none.
        let Some(&arc) = circuit.arcs.get(usize::from(number)) else {
            break;
        };
        carried += carry_arc::<M, S>(model, arc, number, signals);
    }
    carried
}

// Fills the signals of every net, in topological order; answers how many signals the arcs carried.
pub fn propagate<M: DelayModel, S: Sense>(
    model: &M,
    circuit: &Circuit<'_>,
    signals: &mut [SignalRecord],
) -> u32
    requires { step_count * length circuit.now.nets.now ≤ length signals.old }
{
    signals[..STEPS * circuit.nets.len()].fill(NO_SIGNAL);
    let mut carried = 0;
    for &net in circuit.order {
        offer_launch::<S>(circuit.nets[usize::from(net)].launch, net, signals);
        prune_row::<S>(signals, net);
        carried += carry_fan_out::<M, S>(model, circuit, net, signals);
    }
    carried
}
