// The nets and arcs of a block, and the largest figures that they may have.

// The most nets that a block has.
pub const MAX_NETS: usize = 256;

// The most arcs that a block has.
pub const MAX_ARCS: usize = 1024;

// The most arcs that a path has: no net stands on it twice.
pub const MAX_PATH: usize = 255;

// The latest launch time, in picoseconds.
pub const LATEST_LAUNCH: u32 = 1_000_000;

// The largest late or early limit, in picoseconds.
pub const LARGEST_LIMIT: u32 = 20_000_000;

// The highest number of a cell kind.
pub const LAST_KIND: u8 = 31;

// A signal that enters the block: its time, and its transition in picoseconds.
#[derive(Clone, Copy, PartialEq, Eq, Debug)]
pub struct Launch {
    pub time: u32,
    pub transition: u16,
}

// What stands at a net; by default neither a launch nor a limit.
#[derive(Clone, Copy, PartialEq, Eq, Debug, Default)]
pub struct Net {
    pub launch: Option<Launch>,
    pub late_limit: Option<u32>,
    pub early_limit: Option<u32>,
}

// From the net `tail` to the net `head`, through a cell of a kind.
#[derive(Clone, Copy, PartialEq, Eq, Debug)]
pub struct Arc {
    pub tail: u16,
    pub head: u16,
    pub kind: u8,
}
