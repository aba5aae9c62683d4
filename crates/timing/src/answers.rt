// What a timing answers and writes into its areas.
ghost use Rattle.std.specs.Prelude.{◌≡◌, ◌+◌, ◌*◌, ◌≤◌, length, slice_range};
ghost use Rattle.units.specs.Steps.{step_count};
ghost use Rattle.timing.specs.Areas.{place, held_by};
ghost use Rattle.timing.specs.Offers.{kept_record};

use units::steps::STEPS;

// The areas have a fixed layout that callers read: a number for none, a flag for a kept signal, a mark for a launch.

// No figure, in the areas of required times and slacks and as worst slack.
pub const NONE: i32 = -2147483648;

// The arc of a signal that is its net's launch.
pub const LAUNCHED: u16 = 65535;

// Whether a net keeps a signal of a step, its time, and the arc and the tail step that it came from.
#[derive(Clone, Copy, PartialEq, Eq, Debug)]
pub struct SignalRecord {
    pub kept: bool,
    pub time: u32,
    pub arc: u16,
    pub step: u8,
}

// The record of a signal that is not kept.
pub const NO_SIGNAL: SignalRecord = SignalRecord {
    kept: false,
    time: 0,
    arc: 0,
    step: 0,
};

impl SignalRecord {
    // The record of a signal that is kept.
    pub(crate) fn kept(time: u32, arc: u16, step: u8) -> SignalRecord
        ensures { result ≡ kept_record time arc step }
    {
        SignalRecord {
            kept: true,
            time,
            arc,
            step,
        }
    }

    // The time of the signal, where one is kept.
    pub(crate) fn kept_time(self) -> Option<u32>
        ensures { result ≡ held_by self }
    {
        self.kept.then_some(self.time)
    }
}

// The areas are lent as slices, so each function asks for the room that it reads or writes.

// The place of a net and a step in the areas of signals and of required times.
pub(crate) fn place(net: u16, step: u8) -> usize
    ensures { result ≡ place net step }
{
    STEPS * usize::from(net) + usize::from(step)
}

// The part of an area of signals or of required times that is one net's.
pub(crate) fn row<T>(area: &[T], net: usize) -> &[T]
    requires { step_count * net + step_count ≤ length area.now }
    ensures { result.now ≡ slice_range area.now (step_count * net) (step_count * net + step_count) }
{
    &area[STEPS * net..STEPS * net + STEPS]
}

// The worst slack, or NONE; the start net and the number of arcs of a path that has it; the carried count.
#[derive(Clone, Copy, PartialEq, Eq, Debug)]
pub struct Answer {
    pub worst_slack: i32,
    pub start: u16,
    pub arcs: u16,
    pub carried: u32,
}
