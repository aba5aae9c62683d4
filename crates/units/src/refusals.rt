// What a refusal names: its layer, its number in the table of refusals, and its place.

#[derive(Clone, Copy, PartialEq, Eq, Debug)]
pub enum Layer {
    Model,
    Draft,
    Block,
    Timing,
    Reader,
}

// Each fault turns into one by `From`, with a match over its own rows.
#[derive(Clone, Copy, PartialEq, Eq, Debug)]
pub struct Refusal {
    pub layer: Layer,
    // the row of the table, which the report prints
    pub number: u8,
    pub place: usize,
}
