// Drafts, and timings into areas.
use crate::files::{EXAMPLE, bytes_of};
use block::faults::{BlockFault, TimeFault};
use block::settled_block::SettledBlock;
use blockfile::loading::load;
use models::fixed::Fixed;
use models::points::Points;
use network::draft::{Draft, Side};
use network::faults::DraftFault;
use std::alloc::Global;
use std::process::Abort;
use std::test::Fail;
use timing::answers::{Answer, NO_SIGNAL, NONE, SignalRecord};
use timing::faults::TimingFault;
use units::senses::{Early, Late};
use units::steps::STEPS;

#[test]
fn one_net(rt: HostRuntime) -> Result<(), Fail> {
    let mut draft = Draft::new(rt.alloc())?;
    assert_eq!(rt; draft.net(), Ok(0));
    assert_eq!(rt;
        draft.launch(0, 7, 1272),
        Err(DraftFault::TransitionTooLong(1272))
    );
    assert_eq!(rt; draft.launch(0, 7, 57), Ok(()));
    assert_eq!(rt; draft.limit(0, Side::Late, 5), Ok(()));
    let block = SettledBlock::settle(draft, 0);
    let model = Fixed::new(rt.alloc())?;
    let mut signals = [NO_SIGNAL; 33];
    let mut required = [3; 33];
    let mut slacks = [3; 2];
    let mut path = [3; 255];
    let late = block.time(
        &model,
        Late,
        &mut signals,
        &mut required,
        &mut slacks,
        &mut path,
    );
    assert_eq!(rt;
        late,
        Ok(Answer {
            worst_slack: -2,
            start: 0,
            arcs: 0,
            carried: 0,
        })
    );
    assert_eq!(rt;
        signals[5],
        SignalRecord {
            kept: true,
            time: 7,
            arc: 65535,
            step: 0,
        }
    );
    assert_eq!(rt;
        (signals[4], required[0], required[31], required[32]),
        (NO_SIGNAL, 5, 5, 3)
    );
    assert_eq!(rt; (slacks[0], slacks[1], path[0]), (-2, 3, 3));
    let early = block.time(
        &model,
        Early,
        &mut signals,
        &mut required,
        &mut slacks,
        &mut path,
    );
    assert_eq!(rt;
        early,
        Ok(Answer {
            worst_slack: NONE,
            start: 0,
            arcs: 0,
            carried: 0,
        })
    );
    Ok(())
}

// Times a block of one net into areas of these lengths.
fn time_into(
    rt: &impl Abort,
    heap: Global,
    lengths: (usize, usize, usize, usize),
) -> Result<Result<Answer, TimeFault>, Fail> {
    let mut draft = Draft::new(heap)?;
    assert_eq!(rt; draft.net(), Ok(0));
    let block = SettledBlock::settle(draft, 0);
    let model = Fixed::new(heap)?;
    let mut signals = vec![in heap; NO_SIGNAL; lengths.0]?;
    let mut required = vec![in heap; 0; lengths.1]?;
    let mut slacks = vec![in heap; 0; lengths.2]?;
    let mut path = vec![in heap; 0u16; lengths.3]?;
    Ok(block.time(
        &model,
        Late,
        &mut signals,
        &mut required,
        &mut slacks,
        &mut path,
    ))
}

#[test]
fn areas_are_tested(rt: HostRuntime) -> Result<(), Fail> {
    for (lengths, area) in [
        ((31, 31, 0, 254), 1u8),
        ((32, 31, 0, 254), 2),
        ((32, 32, 0, 254), 3),
        ((32, 32, 1, 254), 4),
    ] {
        let answer = time_into(&rt, rt.alloc(), lengths)?;
        assert_eq!(rt;
            answer,
            Err(TimeFault::Timing(TimingFault::AreaTooShort(area)))
        );
    }
    assert_eq!(rt; time_into(&rt, rt.alloc(), (32, 32, 1, 255))?.is_ok(), true);
    Ok(())
}

#[test]
fn a_self_arc_is_a_cycle(rt: HostRuntime) -> Result<(), Fail> {
    let mut draft = Draft::new(rt.alloc())?;
    assert_eq!(rt; draft.net(), Ok(0));
    assert_eq!(rt; draft.net(), Ok(1));
    assert_eq!(rt; draft.check(), Ok(()));
    assert_eq!(rt; draft.arc(1, 1, 0), Ok(0));
    assert_eq!(rt; draft.check(), Err(DraftFault::Cycle(1)));
    let block = SettledBlock::settle(draft, 7);
    assert_eq!(rt; block.mark(), 7);
    let model = Fixed::new(rt.alloc())?;
    let answer = block.time(&model, Late, &mut [], &mut [], &mut [], &mut []);
    assert_eq!(rt; answer, Err(TimeFault::Block(BlockFault::Cycle(1))));
    Ok(())
}

// The signals that a net keeps, each as step and time.
fn kept(heap: Global, signals: &[SignalRecord], net: usize) -> Result<Vec<(usize, u32)>, Fail> {
    let row = signals.chunks(STEPS).nth(net).ok_or("no such net")?;
    let kept = row
        .iter()
        .enumerate()
        .filter(|(_, record)| record.kept)
        .map(|(step, record)| (step, record.time))
        .collect(heap)?;
    Ok(kept)
}

// A path through every net of a block of full length.
#[test]
fn longest_path(rt: HostRuntime) -> Result<(), Fail> {
    let mut draft = Draft::new(rt.alloc())?;
    for net in 0..256u16 {
        assert_eq!(rt; draft.net(), Ok(net));
    }
    for arc in 0..255u16 {
        assert_eq!(rt; draft.arc(255 - arc, 254 - arc, 0), Ok(arc));
    }
    assert_eq!(rt; draft.launch(255, 1_000_000, 1271), Ok(()));
    assert_eq!(rt; draft.limit(0, Side::Late, 20_000_000), Ok(()));
    let block = SettledBlock::settle(draft, 0);
    let mut model = Fixed::new(rt.alloc())?;
    assert_eq!(rt; model.add(65535, 31), Ok(0));
    let mut signals = vec![in rt.alloc(); NO_SIGNAL; 8192]?;
    let mut required = vec![in rt.alloc(); 0; 8192]?;
    let mut slacks = [0; 256];
    let mut path = [0; 255];
    let answer = block.time(
        &model,
        Late,
        &mut signals,
        &mut required,
        &mut slacks,
        &mut path,
    );
    assert_eq!(rt;
        answer,
        Ok(Answer {
            worst_slack: 2_288_575,
            start: 255,
            arcs: 255,
            carried: 255,
        })
    );
    assert_eq!(rt; (path[0], path[254], slacks[128]), (0, 254, 2_288_575));
    Ok(())
}

// The example of four nets: the signals that each net keeps, exactly, and the carried count, in both senses.
#[test]
fn example_keeps(rt: HostRuntime) -> Result<(), Fail> {
    let heap = rt.alloc();
    let mut draft = Draft::new(heap)?;
    let mut model = Points::new(heap)?;
    assert_eq!(rt;
        load(&bytes_of(heap, EXAMPLE)?, &mut draft, &mut model),
        Ok(())
    );
    let block = SettledBlock::settle(draft, 0);
    let mut signals = vec![in heap; NO_SIGNAL; 128]?;
    let mut required = vec![in heap; 0; 128]?;
    let mut slacks = [0; 4];
    let mut path = [0; 255];
    let late = block.time(
        &model,
        Late,
        &mut signals,
        &mut required,
        &mut slacks,
        &mut path,
    );
    assert_eq!(rt;
        late,
        Ok(Answer {
            worst_slack: -5,
            start: 0,
            arcs: 2,
            carried: 4,
        })
    );
    assert_eq!(rt; kept(heap, &signals, 0)?.as_slice(), [(4, 0)].as_slice());
    assert_eq!(rt; kept(heap, &signals, 1)?.as_slice(), [(4, 0)].as_slice());
    assert_eq!(rt;
        kept(heap, &signals, 2)?.as_slice(),
        [(2, 70), (20, 60)].as_slice()
    );
    assert_eq!(rt; kept(heap, &signals, 3)?.as_slice(), [(6, 90)].as_slice());
    let early = block.time(
        &model,
        Early,
        &mut signals,
        &mut required,
        &mut slacks,
        &mut path,
    );
    assert_eq!(rt;
        early,
        Ok(Answer {
            worst_slack: 2,
            start: 1,
            arcs: 2,
            carried: 4,
        })
    );
    assert_eq!(rt;
        kept(heap, &signals, 2)?.as_slice(),
        [(2, 70), (20, 60)].as_slice()
    );
    assert_eq!(rt; kept(heap, &signals, 3)?.as_slice(), [(1, 82)].as_slice());
    Ok(())
}
