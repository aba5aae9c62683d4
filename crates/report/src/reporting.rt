// From a block file to its report.
ghost use Rattle.std.specs.Prelude.{IfOk, string_bytes};
ghost use Rattle.report.specs.Lines.{IsReport};

use crate::areas::time_block;
use crate::errors::TimingError;
use crate::lines::{FaultLine, TimedBlock};
use block::settled_block::SettledBlock;
use blockfile::loading::load;
use models::points::Points;
use network::draft::Draft;
use std::alloc::{AllocError, Global};
use units::senses::{Early, Late};

// The mark under which a reported block is settled.
const MARK: u32 = 0;

// Times the block of a file in both senses.
fn time_file(heap: Global, file: &[u8]) -> Result<TimedBlock, TimingError> {
    let mut draft = Draft::new(heap)?;
    let mut model = Points::new(heap)?;
    load(file, &mut draft, &mut model)?;
    let block = SettledBlock::settle(draft, MARK);
    let late = time_block(heap, &block, &model, Late)?;
    let early = time_block(heap, &block, &model, Early)?;
    Ok(TimedBlock { late, early })
}

// The report of a block file. A refusal of the block stands at the end of the file.
pub fn report(heap: Global, file: &[u8]) -> Result<String, AllocError>
    ensures { IfOk result (λ text. IsReport (string_bytes text)) }
{
    let (offset, refusal) = match time_file(heap, file) {
        Ok(timed) => return timed.to_string(heap),
        Err(TimingError::OutOfMemory(error)) => return Err(error),
        Err(TimingError::Load(fault)) => (fault.offset, fault.into()),
        Err(TimingError::Time(fault)) => (file.len(), fault.into()),
    };
    FaultLine { offset, refusal }.to_string(heap)
}
