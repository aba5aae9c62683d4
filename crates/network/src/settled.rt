// The settled network, which timing runs on.
ghost use Rattle.std.specs.Prelude.{◌≡◌, ℕ, ◌<◌, ◌≤◌, length, Some, None, slice_index};
ghost use Rattle.paths.specs.Blocks.{max_nets, max_arcs, block, Joined, KindsFit, TimesFit, TransitionsFit, LateLimitsFit, EarlyLimitsFit};
ghost use Rattle.paths.specs.Cycles.{NoneCanBePlaced, CycleAt, LeftIsReachable};
ghost use Rattle.paths.specs.Orders.{Placed, Unplaced, Numbers, Once, TailsFirst, Whole, TopologicalOrder};
ghost use Rattle.network.specs.FanOuts.{FansOut};
ghost use Rattle.network.specs.Sorting.{order_nets, placed_nets};

use crate::fan_out::FanOut;
use crate::netlist::Netlist;
use crate::order::Order;
use paths::blocks::{Arc, Net};

// The nets placed in `order` stand in topological order. Where there is a cycle, only those that no cycle leads to are
// placed, and `cycle` is the lowest net on a cycle or reachable from one.
#[derive(Drop)]
pub struct Network {
    pub(crate) netlist: Netlist,
    pub(crate) order: Order,
    pub(crate) cycle: Option<u16>,
    pub(crate) fan_out: FanOut,
    ghost long: { length (order_nets order) ≡ length netlist.nets.items },
    ghost numbers: { Numbers (length netlist.nets.items) (order_nets order) },
    ghost once: { Once (placed_nets order) },
    ghost tails_first: { TailsFirst netlist.arcs.items (placed_nets order) },
    ghost none_can_be_placed: { NoneCanBePlaced (length netlist.nets.items) netlist.arcs.items (placed_nets order) },
    ghost whole: { (cycle ≡ None → Whole (length netlist.nets.items) (placed_nets order)) },
    ghost all_placed: { (cycle ≡ None → order.placed ≡ length netlist.nets.items) },
    ghost left: { ((n : ℕ) → cycle ≡ Some n → (n < length netlist.nets.items) × Unplaced (placed_nets order) n) },
    ghost lowest: { ((n k : ℕ) → cycle ≡ Some n → k < n → Placed (placed_nets order) k) },
    ghost fans: { FansOut netlist.arcs.items fan_out },
}

impl Network {
    pub fn nets(&self) -> &[Net]
        ensures value { result.now ≡ self.now.netlist.nets.items }
        ensures few { length result.now ≤ max_nets }
        ensures times { TimesFit result.now }
        ensures transitions { TransitionsFit result.now }
        ensures lates { LateLimitsFit result.now }
        ensures earlies { EarlyLimitsFit result.now }
    {
        self.netlist.nets()
    }

    pub fn arcs(&self) -> &[Arc]
        ensures value { result.now ≡ self.now.netlist.arcs.items }
        ensures few { length result.now ≤ max_arcs }
        ensures joined { Joined (length self.now.netlist.nets.items) result.now }
        ensures kinds { KindsFit result.now }
    {
        self.netlist.arcs()
    }

    // One entry for each net: first those that `placed` lends; past them it says nothing, but that it is the number of a net.
    pub fn order(&self) -> &[u16]
        ensures value { result.now ≡ order_nets self.now.order }
        ensures len { length result.now ≡ length self.now.netlist.nets.items }
        ensures numbers { (k : ℕ) → k < length result.now → slice_index result.now k < length self.now.netlist.nets.items }
    {
        self.order.nets()
    }

    // The nets that no cycle leads to, each after the tails of all arcs into it.
    pub fn placed(&self) -> &[u16]
        ensures value { result.now ≡ placed_nets self.now.order }
        ensures once { Once result.now }
        ensures tails_first { TailsFirst self.now.netlist.arcs.items result.now }
        ensures left { LeftIsReachable (block self.now.netlist.nets.items self.now.netlist.arcs.items) result.now }
        ensures topological { self.now.cycle ≡ None → TopologicalOrder (length self.now.netlist.nets.items) self.now.netlist.arcs.items result.now }
    {
        self.order.placed()
    }

    pub fn fan_out(&self) -> &FanOut
        ensures value { result.now ≡ self.now.fan_out }
        ensures fans { FansOut self.now.netlist.arcs.items result.now }
    {
        &self.fan_out
    }

    // The lowest net on a cycle or reachable from one; none where there is no cycle.
    pub fn cycle(&self) -> Option<u16>
        ensures value { result ≡ self.now.cycle }
        ensures at { CycleAt (block self.now.netlist.nets.items self.now.netlist.arcs.items) result }
    {
        self.cycle
    }
}
