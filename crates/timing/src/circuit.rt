// What a timing reads of a block: its nets and arcs, an order of the nets, and the arcs out of each.
ghost use Rattle.std.specs.Prelude.{◌≡◌, ◌≤◌, length};
ghost use Rattle.paths.specs.Blocks.{max_nets, max_arcs, Joined, LateLimitsFit, EarlyLimitsFit};
ghost use Rattle.paths.specs.Orders.{Numbers};

use network::fan_out::FanOut;
use paths::blocks::{Arc, Net};

// Nets and arcs are lent apart, so that arcs of other kinds can stand in for a block's own; so some of a netlist's facts
// stand here again. The passes walk a net's arcs each with a step of its own.
#[derive(Clone, Copy)]
pub struct Circuit<'a> {
    pub nets: &'a [Net],
    pub arcs: &'a [Arc],
    pub order: &'a [u16],
    pub fan_out: &'a FanOut,
    ghost few: { (length nets.now ≤ max_nets) × (length arcs.now ≤ max_arcs) },
    ghost joined: { Joined (length nets.now) arcs.now },
    ghost lates: { LateLimitsFit nets.now },
    ghost earlies: { EarlyLimitsFit nets.now },
    ghost long: { length order.now ≡ length nets.now },
    ghost numbers: { Numbers (length nets.now) order.now },
}
