// The draft of a block, which is built net by net and arc by arc.
ghost use Rattle.std.specs.Prelude.{◌≤◌, vec_capacity};
ghost use Rattle.paths.specs.Blocks.{max_nets, max_arcs};

use crate::netlist::Netlist;

mod building;
pub mod figures;
mod settling;

// Which of a net's two limits.
#[derive(Clone, Copy, PartialEq, Eq, Debug)]
pub enum Side {
    Late,
    Early,
}

// All the room that a draft may need is reserved when it is made.
#[derive(Drop)]
pub struct Draft {
    netlist: Netlist,
    ghost room: { (max_nets ≤ vec_capacity netlist.nets) × (max_arcs ≤ vec_capacity netlist.arcs) },
}
