// The nets of a block in order.
ghost use Rattle.std.specs.Prelude.{◌≡◌, ◌≤◌, length, take};
ghost use Rattle.paths.specs.Blocks.{max_nets};
ghost use Rattle.paths.specs.Orders.{Numbers};

use paths::blocks::MAX_NETS;

// First the nets that are placed, each after the tails of all arcs into it. There is an entry for each net; past those placed
// it says nothing. Entries past `count` are not used: an order is `Copy`, which an `ArrayVec` is not.
#[derive(Clone, Copy)]
pub struct Order {
    nets: [u16; MAX_NETS],
    count: usize,
    placed: usize,
    ghost few: { count ≤ max_nets },
    ghost within: { placed ≤ length (take count nets) },
}

impl Order {
    ghost use Rattle.network.specs.Sorting.{order_nets, placed_nets};

    // The order of a block of that many nets, of which these are placed.
    pub(crate) fn of(placed: &[u16], count: usize) -> Order
        requires few { count ≤ max_nets }
        requires within { length placed.now ≤ count }
        requires numbers { Numbers count placed.now }
        ensures long { length (order_nets result) ≡ count }
        ensures numbers { Numbers count (order_nets result) }
        ensures placed { placed_nets result ≡ placed.now }
        ensures number { result.placed ≡ length placed.now }
    {
        let mut nets = [0; MAX_NETS];
        nets[..placed.len()].copy_from_slice(placed);
        Order {
            nets,
            count,
            placed: placed.len(),
        }
    }

    pub(crate) fn nets(&self) -> &[u16]
        ensures { result.now ≡ order_nets self.now }
    {
        &self.nets[..self.count]
    }

    pub(crate) fn placed(&self) -> &[u16]
        ensures { result.now ≡ placed_nets self.now }
    {
        &self.nets()[..self.placed]
    }
}
