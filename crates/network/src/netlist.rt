// The nets and arcs of a block.
ghost use Rattle.std.specs.Prelude.{◌≡◌, ◌≤◌, length};
ghost use Rattle.paths.specs.Blocks.{max_nets, max_arcs, Joined, KindsFit, TimesFit, TransitionsFit, LateLimitsFit, EarlyLimitsFit};

use paths::blocks::{Arc, Net};

// Each arc leads from a net to a net, and each figure is in its range.
#[derive(Drop)]
pub struct Netlist {
    pub(crate) nets: Vec<Net>,
    pub(crate) arcs: Vec<Arc>,
    ghost few: { (length nets.items ≤ max_nets) × (length arcs.items ≤ max_arcs) },
    ghost joined: { Joined (length nets.items) arcs.items },
    ghost kinds: { KindsFit arcs.items },
    ghost times: { TimesFit nets.items },
    ghost transitions: { TransitionsFit nets.items },
    ghost lates: { LateLimitsFit nets.items },
    ghost earlies: { EarlyLimitsFit nets.items },
}

// Draft and settled network are types of their own, and lend what this lends.
impl Netlist {
    pub(crate) fn nets(&self) -> &[Net]
        ensures value { result.now ≡ self.now.nets.items }
        ensures few { length result.now ≤ max_nets }
        ensures times { TimesFit result.now }
        ensures transitions { TransitionsFit result.now }
        ensures lates { LateLimitsFit result.now }
        ensures earlies { EarlyLimitsFit result.now }
    {
        &self.nets
    }

    pub(crate) fn arcs(&self) -> &[Arc]
        ensures value { result.now ≡ self.now.arcs.items }
        ensures few { length result.now ≤ max_arcs }
        ensures joined { Joined (length self.now.nets.items) result.now }
        ensures kinds { KindsFit result.now }
    {
        &self.arcs
    }
}
