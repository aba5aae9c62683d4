// A point of a kind: at a step, a delay and an output step.
#[derive(Clone, Copy, Default, PartialEq, Eq, Debug)]
pub struct Point {
    pub step: u8,
    pub delay: u16,
    pub output_step: u8,
}
