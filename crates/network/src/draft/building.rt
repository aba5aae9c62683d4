// Making, building and reading a draft. A call tests its refusals in the order of their numbers.
ghost use Rattle.std.specs.Prelude.{◌≡◌, ◌<◌, ◌∷◌, [], length, IfOk};
ghost use Rattle.units.specs.Refusals.{Outcome};
ghost use Rattle.network.specs.Calls.{draft_block, empty_block, net_row, NetAdded, ArcAdded, Launched, Limited};
ghost use Rattle.network.specs.Faults.{refusal_of};

use super::figures::{test_launch, test_limit};
use super::{Draft, Side};
use crate::faults::DraftFault;
use crate::netlist::Netlist;
use paths::blocks::{Arc, LAST_KIND, Launch, MAX_ARCS, MAX_NETS, Net};
use std::alloc::{AllocError, Global};

impl Draft {
    // A draft with no nets and no arcs.
    pub fn new(heap: Global) -> Result<Draft, AllocError>
        ensures { IfOk result (λ d. draft_block d ≡ empty_block) }
    {
        let nets = Vec::with_capacity(heap, MAX_NETS)?;
        let arcs = Vec::with_capacity(heap, MAX_ARCS)?;
        Ok(Draft {
            netlist: Netlist { nets, arcs },
        })
    }

    pub fn nets(&self) -> &[Net]
        ensures { result.now ≡ self.now.netlist.nets.items }
    {
        self.netlist.nets()
    }

    pub fn arcs(&self) -> &[Arc]
        ensures { result.now ≡ self.now.netlist.arcs.items }
    {
        self.netlist.arcs()
    }

    // Adds a net with no launch and no limit, and answers its number.
    pub fn net(&mut self) -> Result<u16, DraftFault>
        ensures { NetAdded (draft_block self.old) result (draft_block self.new) }
    {
        let net = self.netlist.nets.len();
        if net >= MAX_NETS {
            return Err(DraftFault::NetsFull);
        }
        self.netlist.nets.push_reserved(Net::default());
        Ok(net as u16)
    }

    // Adds an arc, and answers its number.
    pub fn arc(&mut self, tail: u16, head: u16, kind: u8) -> Result<u16, DraftFault>
        ensures { ArcAdded (draft_block self.old) tail head kind result (draft_block self.new) }
    {
        let arc = self.netlist.arcs.len();
        if arc >= MAX_ARCS {
            return Err(DraftFault::ArcsFull);
        }
        self.test_net(tail)?;
        self.test_net(head)?;
        if kind > LAST_KIND {
            return Err(DraftFault::KindTooLarge(kind));
        }
        self.netlist.arcs.push_reserved(Arc { tail, head, kind });
        Ok(arc as u16)
    }

    // Refuses a number that no net has.
    fn test_net(&self, net: u16) -> Result<(), DraftFault>
        ensures { Outcome refusal_of (net_row (draft_block self.now) net ∷ []) result (λ _. net < length self.now.netlist.nets.items) (Unit {0}) }
    {
        if usize::from(net) >= self.netlist.nets.len() {
            return Err(DraftFault::NoSuchNet(net));
        }
        Ok(())
    }

    // Gives a net a launch, in place of one that it may have.
    pub fn launch(&mut self, net: u16, time: u32, transition: u16) -> Result<(), DraftFault>
        ensures { Launched (draft_block self.old) net time transition result (draft_block self.new) }
    {
        self.test_net(net)?;
        test_launch(time, transition)?;
        self.netlist.nets[usize::from(net)].launch = Some(Launch { time, transition });
        Ok(())
    }

    // Gives a net a late or an early limit, in place of one that it may have.
    pub fn limit(&mut self, net: u16, side: Side, value: u32) -> Result<(), DraftFault>
        ensures { Limited (draft_block self.old) net side value result (draft_block self.new) }
    {
        self.test_net(net)?;
        test_limit(value)?;
        let net = &mut self.netlist.nets[usize::from(net)];
        match side {
            Side::Late => net.late_limit = Some(value),
            Side::Early => net.early_limit = Some(value),
        }
        Ok(())
    }
}
