// A topological order of the nets: each arc's tail stands before its head.
ghost use Rattle.std.specs.Prelude.{◌≡◌, ◌+◌, ◌<◌, ◌≤◌, length, None};
ghost use Rattle.paths.specs.Blocks.{max_nets};
ghost use Rattle.paths.specs.Cycles.{TakenOff};
ghost use Rattle.paths.specs.Orders.{Numbers, LowestUnplaced};
ghost use Rattle.network.specs.FanOuts.{FansOut};
ghost use Rattle.network.specs.Sorting.{order_nets, placed_nets, SourcesPlaced, Sorting, LowestPending};

use crate::counts::counts_by;
use crate::fan_out::FanOut;
use crate::netlist::Netlist;
use crate::order::Order;
use arrayvec::ArrayVec;
use paths::blocks::MAX_NETS;

impl Netlist {
    // The nets in topological order, and the lowest that has no place in it: the lowest on a cycle or reachable from one.
    pub(crate) fn topological_order(&self, fan_out: &FanOut) -> (Order, Option<u16>)
        requires { FansOut self.now.arcs.items fan_out.now }
        ensures long { length (order_nets result.0) ≡ length self.now.nets.items }
        ensures numbers { Numbers (length self.now.nets.items) (order_nets result.0) }
        ensures off { TakenOff (length self.now.nets.items) self.now.arcs.items (placed_nets result.0) }
        ensures lowest { LowestUnplaced (length self.now.nets.items) (placed_nets result.0) result.1 }
        ensures all_placed { result.1 ≡ None → result.0.placed ≡ length self.now.nets.items }
    {
        let mut counts = counts_by(self.arcs(), |arc| arc.head);
        let pending = &mut counts[..self.nets.len()];
        let mut order = sources(pending);
        let mut at = 0;
        // The order grows while the loop goes along it.
        while at < order.len() {
            self.release_heads(fan_out, at, pending, &mut order);
            at += 1;
        }
        (Order::of(&order, pending.len()), lowest_unplaced(pending))
    }

    // Counts the arcs out of the net at a place off at their heads, and places each head that waits for no more.
    fn release_heads(
        &self,
        fan_out: &FanOut,
        at: usize,
        pending: &mut [u16],
        order: &mut ArrayVec<u16, MAX_NETS>,
    )
        requires fans { FansOut self.now.arcs.items fan_out.now }
        requires nets { length pending.old ≡ length self.now.nets.items }
        requires at { at < length order.old.items }
        requires sorting { Sorting self.now.arcs.items at 0 pending.old order.old.items }
        ensures at { at < length order.new.items }
        ensures sorting { Sorting self.now.arcs.items (at + 1) 0 pending.new order.new.items }
    {
        let net = order[at];
        for &i in fan_out.arcs_out(net) {
            let head = self.arcs[usize::from(i)].head;
            let count = &mut pending[usize::from(head)];
            *count -= 1;
            if *count == 0 {
                order.push(head);
            }
        }
    }
}

// The nets that no arc leads into, in rising number. Counts are lent, one for each net, so their bound is asked.
fn sources(pending: &[u16]) -> ArrayVec<u16, MAX_NETS>
    requires { length pending.now ≤ max_nets }
    ensures { SourcesPlaced pending.now (length pending.now) result.items }
{
    let mut order = ArrayVec::new();
    for (source, &count) in pending.iter().enumerate() {
        if count == 0 {
            order.push(source as u16);
        }
    }
    order
}

// The lowest net that still waits for an arc into it.
fn lowest_unplaced(pending: &[u16]) -> Option<u16>
    requires { length pending.now ≤ max_nets }
    ensures { LowestPending pending.now result }
{
    pending
        .iter()
        .position(|&count| count > 0)
        .map(|net| net as u16)
}
