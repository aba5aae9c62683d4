// Small files, loaded and refused.
use crate::files::{EXAMPLE, bytes_of};
use blockfile::faults::{LoadCause, LoadFault, ReaderFault};
use blockfile::loading::load;
use blockfile::reader::Records;
use models::points::Points;
use network::draft::Draft;
use network::faults::DraftFault;
use paths::blocks::{Arc, Launch, Net};
use std::process::Abort;
use std::test::Fail;

#[test]
fn example_loads(rt: HostRuntime) -> Result<(), Fail> {
    let mut draft = Draft::new(rt.alloc())?;
    let mut model = Points::new(rt.alloc())?;
    load(&bytes_of(rt.alloc(), EXAMPLE)?, &mut draft, &mut model)?;
    let launched = Net {
        launch: Some(Launch {
            time: 0,
            transition: 56,
        }),
        late_limit: None,
        early_limit: None,
    };
    let bare = Net {
        launch: None,
        late_limit: None,
        early_limit: None,
    };
    let limited = Net {
        launch: None,
        late_limit: Some(85),
        early_limit: Some(80),
    };
    assert_eq!(rt;
        draft.nets(),
        [launched, launched, bare, limited].as_slice()
    );
    let to_2 = Arc {
        tail: 0,
        head: 2,
        kind: 0,
    };
    let also_to_2 = Arc {
        tail: 1,
        head: 2,
        kind: 1,
    };
    let to_3 = Arc {
        tail: 2,
        head: 3,
        kind: 2,
    };
    assert_eq!(rt; draft.arcs(), [to_2, also_to_2, to_3].as_slice());
    assert!(rt; model.points(2).is_some() && model.points(3).is_none());
    Ok(())
}

// The offsets of the example's records.
#[test]
fn example_records(rt: HostRuntime) -> Result<(), Fail> {
    let file = bytes_of(rt.alloc(), EXAMPLE)?;
    let mut offsets = Vec::new(rt.alloc());
    for record in Records::new(&file) {
        let (offset, _) = record?;
        offsets.push(offset)?;
    }
    assert_eq!(rt;
        offsets.as_slice(),
        [0, 8, 16, 18, 28, 38, 48, 58, 62, 69].as_slice()
    );
    Ok(())
}

// Nothing is read after a record that is refused.
#[test]
fn records_end_at_a_refusal(rt: HostRuntime) {
    let mut records = Records::new(&[7, 0, 1, 0]);
    let fault = records.next().and_then(|record| record.err());
    let cause = LoadCause::Reader(ReaderFault::UnknownTag(7));
    assert_eq!(rt; fault, Some(LoadFault { offset: 0, cause }));
    assert!(rt; records.next().is_none());
}

// Checks that a file is refused, and that so many nets stand in the draft then.
fn refused(
    rt: &(impl Abort + AllocGlobal),
    file: &str,
    fault: LoadFault,
    nets: usize,
) -> Result<(), Fail> {
    let mut draft = Draft::new(rt.alloc())?;
    let mut model = Points::new(rt.alloc())?;
    let bytes = bytes_of(rt.alloc(), file)?;
    assert_eq!(rt; load(&bytes, &mut draft, &mut model), Err(fault));
    assert_eq!(rt; draft.nets().len(), nets);
    Ok(())
}

#[test]
fn truncated_record(rt: HostRuntime) -> Result<(), Fail> {
    let cause = LoadCause::Reader(ReaderFault::Truncated(7));
    refused(&rt, "0100 0100 010C 55", LoadFault { offset: 4, cause }, 2)
}

#[test]
fn refused_net_leaves_nothing(rt: HostRuntime) -> Result<(), Fail> {
    let cause = LoadCause::Draft(DraftFault::LaunchTooLate(1_000_001));
    refused(
        &rt,
        "0100 0105 41420F00 01000000",
        LoadFault { offset: 2, cause },
        1,
    )
}
