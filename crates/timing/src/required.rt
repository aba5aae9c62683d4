// The backward pass: the required times of every net and step, from the limits back along the arcs.
ghost use Rattle.std.specs.Prelude.{◌≡◌, ◌+◌, ◌*◌, ◌<◌, ◌≤◌, length};
ghost use Rattle.paths.specs.Blocks.{largest_limit, limit_of};
ghost use Rattle.units.specs.Steps.{step_count};
ghost use Rattle.timing.specs.RequiredRows.{limit_figure, HarderOf, EntryFits};

use crate::answers::place;
use crate::circuit::Circuit;
use crate::entries::{entry_of, figure};
use models::delay_model::{DelayModel, ask};
use paths::blocks::{Arc, Net};
use units::senses::Sense;
use units::steps::STEPS;

// The harder to meet of two required times, where there are any: the least late, the greatest early.
fn harder_of<S: Sense>(a: Option<i32>, b: Option<i32>) -> Option<i32>
    ensures { HarderOf S.Sense.order a b result }
{
    match (a, b) {
        (Some(x), Some(y)) => Some(if S::as_bad(y, x) { x } else { y }),
        _ => a.or(b),
    }
}

// A net's limit of the sense, one of two values, as a required time.
pub fn limit_of<S: Sense>(net: Net) -> Option<i32>
    requires late { limit_of net.late_limit ≤ largest_limit }
    requires early { limit_of net.early_limit ≤ largest_limit }
    ensures limit { result ≡ limit_figure S.Sense.order net }
    ensures fits { EntryFits result }
{
    let limit = if S::is_late() {
        net.late_limit
    } else {
        net.early_limit
    };
    limit.map(|time| time as i32)
}

// The required time at the tail of an arc and a step, by the required times at its head.
fn required_over<M: DelayModel>(model: &M, arc: Arc, step: u8, required: &[i32]) -> Option<i32>
    requires { step_count * arc.head + step_count ≤ length required.now }
{
    let (delay, output_step) = ask(model, arc.kind, step);
    let time = figure(required[place(arc.head, output_step)])?;
    figure(time.saturating_sub(delay as i32))
}

// Takes what an arc out of the net requires into the net's row. The row holds the area's numbers: the pass is slower with
// options in it.
fn require_over<M: DelayModel, S: Sense>(
    model: &M,
    arc: Arc,
    required: &[i32],
    row: &mut [i32; STEPS],
)
    requires { step_count * arc.head + step_count ≤ length required.now }
{
    for (step, entry) in row.iter_mut().enumerate() {
        let over = required_over(model, arc, step as u8, required);
        *entry = entry_of(harder_of::<S>(figure(*entry), over));
    }
}

// The row of a net, from its limit and the rows of the heads of its arcs.
fn required_row<M: DelayModel, S: Sense>(
    model: &M,
    circuit: &Circuit<'_>,
    net: u16,
    required: &[i32],
) -> [i32; STEPS]
    requires net { net < length circuit.now.nets.now }
    requires room { step_count * length circuit.now.nets.now ≤ length required.now }
{
    let limit = limit_of::<S>(circuit.nets[usize::from(net)]);
    let mut row = [entry_of(limit); STEPS];
    for &number in circuit.fan_out.arcs_out(net) {
        // Past the arcs there is none.
        let Some(&arc) = circuit.arcs.get(usize::from(number)) else {
            break;
        };
        require_over::<M, S>(model, arc, required, &mut row);
    }
    row
}

// Fills the part of the area that is one net's.
fn fill_row(part: &mut [i32], row: &[i32; STEPS])
    requires { length part.old ≡ step_count }
    ensures { part.new ≡ row.now }
{
    part.copy_from_slice(row);
}

// Fills the required times of every net, against the topological order.
pub fn require_all<M: DelayModel, S: Sense>(model: &M, circuit: &Circuit<'_>, required: &mut [i32])
    requires { step_count * length circuit.now.nets.now ≤ length required.old }
{
    for &net in circuit.order.iter().rev() {
        let row = required_row::<M, S>(model, circuit, net, required);
        let at = STEPS * usize::from(net);
        fill_row(&mut required[at..at + STEPS], &row);
    }
}
