// A whole timing.
ghost use Rattle.std.specs.Prelude.{◌*◌, ◌≤◌, length};
ghost use Rattle.units.specs.Refusals.{Outcome};
ghost use Rattle.units.specs.Steps.{step_count};
ghost use Rattle.paths.specs.Blocks.{max_nets};
ghost use Rattle.timing.specs.Faults.{refusal_of};
ghost use Rattle.timing.specs.Rows.{area_rows, AreasFit, kind_rows, KindsHeld};

use crate::answers::{Answer, SignalRecord};
use crate::circuit::Circuit;
use crate::entries::entry_of;
use crate::faults::TimingFault;
use crate::forward::propagate;
use crate::required::require_all;
use crate::slacks::{fill_slacks, worst_slack};
use crate::worst_path::{end_of, trace};
use models::delay_model::DelayModel;
use paths::blocks::MAX_PATH;
use units::senses::Sense;
use units::steps::STEPS;

// Tests the areas in turn.
fn test_areas(
    nets: usize,
    signals: &[SignalRecord],
    required: &[i32],
    slacks: &[i32],
    path: &[u16],
) -> Result<(), TimingFault>
    requires { nets ≤ max_nets }
    ensures { Outcome refusal_of (area_rows nets (length signals.now) (length required.now) (length slacks.now) (length path.now)) result (λ _. AreasFit nets (length signals.now) (length required.now) (length slacks.now) (length path.now)) (Unit {0}) }
{
    if signals.len() < STEPS * nets {
        return Err(TimingFault::AreaTooShort(1));
    }
    if required.len() < STEPS * nets {
        return Err(TimingFault::AreaTooShort(2));
    }
    if slacks.len() < nets {
        return Err(TimingFault::AreaTooShort(3));
    }
    if path.len() < MAX_PATH {
        return Err(TimingFault::AreaTooShort(4));
    }
    Ok(())
}

// Tests that the model holds the kind of every arc.
fn test_kinds<M: DelayModel>(model: &M, circuit: &Circuit<'_>) -> Result<(), TimingFault>
    ensures { Outcome refusal_of (kind_rows (M.DelayModel.meaning model.now).count circuit.now.arcs.now) result (λ _. KindsHeld (M.DelayModel.meaning model.now).count circuit.now.arcs.now) (Unit {0}) }
{
    let count = model.count();
    match circuit.arcs.iter().position(|arc| arc.kind >= count) {
        Some(i) => Err(TimingFault::KindNotHeld(i as u16)),
        None => Ok(()),
    }
}

// Fills the areas of signals, required times and slacks; answers the carried count.
fn fill_figures<M: DelayModel, S: Sense>(
    model: &M,
    circuit: &Circuit<'_>,
    signals: &mut [SignalRecord],
    required: &mut [i32],
    slacks: &mut [i32],
) -> u32
    requires signals { step_count * length circuit.now.nets.now ≤ length signals.old }
    requires required { step_count * length circuit.now.nets.now ≤ length required.old }
    requires slacks { length circuit.now.nets.now ≤ length slacks.old }
{
    let carried = propagate::<M, S>(model, circuit, signals);
    require_all::<M, S>(model, circuit, required);
    fill_slacks::<S>(signals, required, &mut slacks[..circuit.nets.len()]);
    carried
}

// Times a block in one sense, into four areas, each lent by itself as a caller has it.
pub fn time<M: DelayModel, S: Sense>(
    model: &M,
    circuit: &Circuit<'_>,
    signals: &mut [SignalRecord],
    required: &mut [i32],
    slacks: &mut [i32],
    path: &mut [u16],
) -> Result<Answer, TimingFault> {
    test_areas(circuit.nets.len(), signals, required, slacks, path)?;
    test_kinds(model, circuit)?;
    let carried = fill_figures::<M, S>(model, circuit, signals, required, slacks);
    let worst = worst_slack(&slacks[..circuit.nets.len()]);
    let end = worst.map(|worst| end_of::<S>(circuit, signals, worst).unwrap_or((0, 0)));
    let (start, arcs) = end.map_or(
        (0, 0),
        |(net, step)| trace(circuit, signals, net, step, path),
    );
    Ok(Answer {
        worst_slack: entry_of(worst),
        start,
        arcs,
        carried,
    })
}
