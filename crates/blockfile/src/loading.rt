// Loading a block file into a draft and a model of points.
ghost use Rattle.std.specs.Prelude.{◌*◌, ◌≤◌, length};
ghost use Rattle.blockfile.specs.Parts.{map_bits, point_len, PartsFit};

use crate::faults::{LoadCause, LoadFault};
use crate::fields::{net_of, point_of, u8_of, u16_of};
use crate::reader::Records;
use crate::records::{MAP_BITS, Record};
use arrayvec::ArrayVec;
use models::faults::ModelFault;
use models::point::Point;
use models::points::Points;
use network::draft::figures::{test_launch, test_limit};
use network::draft::{Draft, Side};
use network::faults::DraftFault;
use paths::blocks::{MAX_NETS, Net};

// Tests the figures of a net in the order of its record.
fn test_figures(net: &Net) -> Result<(), DraftFault> {
    net.launch.map_or(Ok(()), |launch| {
        test_launch(launch.time, launch.transition)
    })?;
    net.late_limit.map_or(Ok(()), test_limit)?;
    net.early_limit.map_or(Ok(()), test_limit)
}

// Adds a net with its launch and limits, whole or not at all: after these tests none of the draft's calls refuses.
fn add_net(draft: &mut Draft, net: Net) -> Result<(), DraftFault> {
    if draft.nets().len() >= MAX_NETS {
        return Err(DraftFault::NetsFull);
    }
    test_figures(&net)?;
    let number = draft.net()?;
    if let Some(launch) = net.launch {
        draft.launch(number, launch.time, launch.transition)?;
    }
    for (side, value) in [(Side::Late, net.late_limit), (Side::Early, net.early_limit)] {
        if let Some(value) = value {
            draft.limit(number, side, value)?;
        }
    }
    Ok(())
}

// Adds a kind by its points.
fn add_kind(model: &mut Points, bytes: &[u8]) -> Result<u8, ModelFault>
    requires { length bytes.now ≤ point_len * map_bits }
{
    let (chunks, _) = bytes.as_chunks();
    let mut points = ArrayVec::<Point, MAP_BITS>::new();
    // Not by `extend`: ArrayVec's answers a `Result`, a refusal that is not there.
    for chunk in chunks {
        points.push(point_of(chunk));
    }
    model.add(&points)
}

// Adds what a record says to the draft or the model, whole or not at all.
fn add_record(record: Record<'_>, draft: &mut Draft, model: &mut Points) -> Result<(), LoadCause>
    requires { PartsFit «record» }
{
    match record {
        Record::Net {
            launch,
            transition,
            late_limit,
            early_limit,
        } => {
            add_net(draft, net_of(launch, transition, late_limit, early_limit))?;
        }
        Record::Arc { tail, head, kind } => {
            let tail = u16_of(tail).unwrap_or_default();
            let head = u16_of(head).unwrap_or_default();
            let kind = u8_of(kind).unwrap_or_default();
            draft.arc(tail, head, kind)?;
        }
        Record::Kind { points } => {
            add_kind(model, points)?;
        }
    }
    Ok(())
}

// Adds the records of a file one by one, up to the first that is refused.
pub fn load(file: &[u8], draft: &mut Draft, model: &mut Points) -> Result<(), LoadFault> {
    for record in Records::new(file) {
        let (offset, record) = record?;
        add_record(record, draft, model).map_err(|cause| LoadFault { offset, cause })?;
    }
    Ok(())
}
