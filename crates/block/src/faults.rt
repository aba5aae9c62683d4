// Why a call on a settled block is refused.
ghost use Rattle.std.specs.Prelude.{◌≡◌};
ghost use Rattle.block.specs.declared.faults.TimeFault.{TimeFault};
ghost use Rattle.block.specs.Faults.{block_refusal_of, refusal_of};

use timing::faults::TimingFault;
use units::refusals::{Layer, Refusal};

#[derive(Clone, Copy, PartialEq, Eq, Debug)]
pub enum BlockFault {
    // the lowest net on a cycle or reachable from one
    Cycle(u16),
}

// What the refusal names.
impl From<BlockFault> for Refusal {
    ghost from_gives = { λ fault refusal. refusal ≡ block_refusal_of fault };

    fn from(fault: BlockFault) -> Refusal {
        match fault {
            BlockFault::Cycle(net) => Refusal {
                layer: Layer::Block,
                number: 13,
                place: net as usize,
            },
        }
    }
}

// A timing is refused by the block or by the timing itself.
#[derive(Clone, Copy, PartialEq, Eq, Debug)]
pub enum TimeFault {
    Block(BlockFault),
    Timing(TimingFault),
}

impl From<BlockFault> for TimeFault {
    ghost from_gives = { λ fault whole. whole ≡ TimeFault.Block fault };

    fn from(fault: BlockFault) -> TimeFault {
        TimeFault::Block(fault)
    }
}

impl From<TimingFault> for TimeFault {
    ghost from_gives = { λ fault whole. whole ≡ TimeFault.Timing fault };

    fn from(fault: TimingFault) -> TimeFault {
        TimeFault::Timing(fault)
    }
}

// What the refusal names.
impl From<TimeFault> for Refusal {
    ghost from_gives = { λ fault refusal. refusal ≡ refusal_of fault };

    fn from(fault: TimeFault) -> Refusal {
        match fault {
            TimeFault::Block(fault) => Refusal::from(fault),
            TimeFault::Timing(fault) => Refusal::from(fault),
        }
    }
}
