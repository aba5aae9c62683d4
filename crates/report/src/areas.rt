// A timing into areas of its own.
use crate::errors::TimingError;
use block::settled_block::SettledBlock;
use models::delay_model::DelayModel;
use paths::blocks::MAX_PATH;
use std::alloc::Global;
use timing::answers::{Answer, NO_SIGNAL, NONE};
use units::senses::Sense;
use units::steps::STEPS;

// What the report says of one sense: the answer, the slacks of the nets, and the arcs of the path.
#[derive(Drop)]
pub struct Timed {
    pub answer: Answer,
    pub slacks: Vec<i32>,
    pub path: Vec<u16>,
}

// Times a block in one sense.
pub fn time_block<M: DelayModel, S: Sense + Drop>(
    heap: Global,
    block: &SettledBlock,
    model: &M,
    sense: S,
) -> Result<Timed, TimingError> {
    let nets = block.net_count();
    let mut signals = vec![in heap; NO_SIGNAL; STEPS * nets]?;
    let mut required = vec![in heap; NONE; STEPS * nets]?;
    let mut slacks = vec![in heap; NONE; nets]?;
    let mut path = vec![in heap; 0u16; MAX_PATH]?;
    let answer = block.time(
        model,
        sense,
        &mut signals,
        &mut required,
        &mut slacks,
        &mut path,
    )?;
    path.truncate(answer.arcs as usize);
    Ok(Timed {
        answer,
        slacks,
        path,
    })
}
