// The check for cycles, and the end of a draft.
ghost use Rattle.network.specs.Calls.{draft_block, Checked};
ghost use Rattle.network.specs.Settling.{Settled};

use super::Draft;
use crate::fan_out::FanOut;
use crate::faults::DraftFault;
use crate::settled::Network;

impl Draft {
    // Refuses a block that has a cycle.
    pub fn check(&self) -> Result<(), DraftFault>
        ensures { Checked (draft_block self.now) result }
    {
        let fan_out = FanOut::of(self.netlist.arcs());
        let (_, cycle) = self.netlist.topological_order(&fan_out);
        match cycle {
            Some(net) => Err(DraftFault::Cycle(net)),
            None => Ok(()),
        }
    }

    // The network of the block as it stands.
    pub fn settle(self) -> Network
        ensures { Settled (draft_block self) result }
    {
        let Draft { netlist } = self;
        let fan_out = FanOut::of(netlist.arcs());
        let (order, cycle) = netlist.topological_order(&fan_out);
        Network {
            netlist,
            order,
            cycle,
            fan_out,
        }
    }
}
