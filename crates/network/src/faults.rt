// Why a draft refuses.
ghost use Rattle.std.specs.Prelude.{◌≡◌};
ghost use Rattle.network.specs.Faults.{refusal_of};

use paths::blocks::{MAX_ARCS, MAX_NETS};
use units::refusals::{Layer, Refusal};

#[derive(Clone, Copy, PartialEq, Eq, Debug)]
pub enum DraftFault {
    // 256 nets are there already
    NetsFull,
    // 1024 arcs are there already
    ArcsFull,
    // no net has this number
    NoSuchNet(u16),
    // a launch time above 1000000
    LaunchTooLate(u32),
    // a transition above 1271
    TransitionTooLong(u16),
    // a late or an early limit above 20000000
    LimitTooLarge(u32),
    // the lowest net on a cycle or reachable from one
    Cycle(u16),
    // a kind above 31
    KindTooLarge(u8),
}

// What the refusal names.
impl From<DraftFault> for Refusal {
    ghost from_gives = { λ fault refusal. refusal ≡ refusal_of fault };

    fn from(fault: DraftFault) -> Refusal {
        let (number, place) = match fault {
            DraftFault::NetsFull => (9, MAX_NETS),
            DraftFault::ArcsFull => (10, MAX_ARCS),
            DraftFault::NoSuchNet(net) => (11, net as usize),
            DraftFault::LaunchTooLate(time) => (12, time as usize),
            DraftFault::TransitionTooLong(transition) => (12, transition as usize),
            DraftFault::LimitTooLarge(value) => (12, value as usize),
            DraftFault::Cycle(net) => (13, net as usize),
            DraftFault::KindTooLarge(kind) => (15, kind as usize),
        };
        Refusal {
            layer: Layer::Draft,
            number,
            place,
        }
    }
}
