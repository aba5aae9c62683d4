// Small drafts, settled and refused.
use network::draft::{Draft, Side};
use network::faults::DraftFault;
use paths::blocks::{Launch, Net};
use std::test::Fail;

// A draft with arcs of kind 0 between so many nets.
fn drawn(rt: &HostRuntime, nets: u16, arcs: &[(u16, u16)]) -> Result<Draft, Fail> {
    let mut draft = Draft::new(rt.alloc())?;
    for _ in 0..nets {
        draft.net()?;
    }
    for (tail, head) in arcs {
        draft.arc(*tail, *head, 0)?;
    }
    Ok(draft)
}

#[test]
fn chain(rt: HostRuntime) -> Result<(), Fail> {
    let network = drawn(&rt, 3, &[(0, 1), (1, 2)])?.settle();
    assert_eq!(rt; network.cycle(), None);
    assert_eq!(rt; network.order(), [0, 1, 2].as_slice());
    Ok(())
}

#[test]
fn chain_drawn_backwards(rt: HostRuntime) -> Result<(), Fail> {
    let network = drawn(&rt, 4, &[(1, 0), (2, 1), (3, 2)])?.settle();
    assert_eq!(rt; network.cycle(), None);
    assert_eq!(rt; network.order(), [3, 2, 1, 0].as_slice());
    Ok(())
}

#[test]
fn diamond(rt: HostRuntime) -> Result<(), Fail> {
    let network = drawn(&rt, 4, &[(3, 1), (3, 2), (1, 0), (2, 0)])?.settle();
    assert_eq!(rt; network.cycle(), None);
    assert_eq!(rt; network.order(), [3, 1, 2, 0].as_slice());
    Ok(())
}

#[test]
fn arc_to_itself(rt: HostRuntime) -> Result<(), Fail> {
    let draft = drawn(&rt, 2, &[(0, 1), (1, 1)])?;
    assert_eq!(rt; draft.check(), Err(DraftFault::Cycle(1)));
    Ok(())
}

#[test]
fn lowest_net_hangs_behind_a_cycle(rt: HostRuntime) -> Result<(), Fail> {
    let draft = drawn(&rt, 5, &[(2, 2), (3, 4), (4, 3), (4, 1)])?;
    assert_eq!(rt; draft.check(), Err(DraftFault::Cycle(1)));
    let network = draft.settle();
    assert_eq!(rt; network.cycle(), Some(1));
    assert_eq!(rt; network.placed(), [0].as_slice());
    Ok(())
}

// Net n leads to net n + 1, and the last one back to net 0.
#[test]
fn ring_of_256_nets(rt: HostRuntime) -> Result<(), Fail> {
    let mut draft = drawn(&rt, 256, &[])?;
    for n in 0..255 {
        draft.arc(n, n + 1, 31)?;
    }
    assert_eq!(rt; draft.check(), Ok(()));
    assert_eq!(rt; draft.arc(255, 0, 31)?, 255);
    assert_eq!(rt; draft.check(), Err(DraftFault::Cycle(0)));
    assert_eq!(rt; draft.net(), Err(DraftFault::NetsFull));
    let network = draft.settle();
    assert_eq!(rt; network.cycle(), Some(0));
    assert_eq!(rt; network.placed().len(), 0);
    Ok(())
}

// Four times from each net to the next, then from net 0 to the last.
#[test]
fn full_of_arcs(rt: HostRuntime) -> Result<(), Fail> {
    let mut draft = drawn(&rt, 256, &[])?;
    for _ in 0..4 {
        for n in 0..255 {
            draft.arc(n, n + 1, 3)?;
        }
    }
    for _ in 0..3 {
        draft.arc(0, 255, 3)?;
    }
    assert_eq!(rt; draft.arc(0, 255, 5)?, 1023);
    assert_eq!(rt; draft.arc(0, 255, 3), Err(DraftFault::ArcsFull));
    assert_eq!(rt; draft.check(), Ok(()));
    let network = draft.settle();
    assert_eq!(rt; network.arcs().len(), 1024);
    assert_eq!(rt; network.arcs()[1022].kind, 3);
    assert_eq!(rt; network.arcs()[1023].kind, 5);
    assert_eq!(rt; network.order().len(), 256);
    assert_eq!(rt; network.order()[255], 255);
    Ok(())
}

#[test]
fn empty(rt: HostRuntime) -> Result<(), Fail> {
    let draft = drawn(&rt, 0, &[])?;
    assert_eq!(rt; draft.check(), Ok(()));
    let network = draft.settle();
    assert_eq!(rt; network.cycle(), None);
    assert_eq!(rt; network.order().len(), 0);
    Ok(())
}

#[test]
fn refused_arc(rt: HostRuntime) -> Result<(), Fail> {
    let mut draft = drawn(&rt, 1, &[])?;
    assert_eq!(rt; draft.arc(5, 9, 32), Err(DraftFault::NoSuchNet(5)));
    assert_eq!(rt; draft.arc(0, 9, 32), Err(DraftFault::NoSuchNet(9)));
    assert_eq!(rt; draft.arc(0, 0, 32), Err(DraftFault::KindTooLarge(32)));
    assert_eq!(rt; draft.arcs().len(), 0);
    Ok(())
}

#[test]
fn second_figures_replace_the_first(rt: HostRuntime) -> Result<(), Fail> {
    let mut draft = drawn(&rt, 2, &[])?;
    draft.launch(1, 7, 57)?;
    draft.limit(1, Side::Late, 90)?;
    draft.limit(1, Side::Early, 80)?;
    draft.limit(1, Side::Late, 85)?;
    draft.launch(1, 1_000_000, 1271)?;
    assert_eq!(rt; draft.launch(2, 0, 0), Err(DraftFault::NoSuchNet(2)));
    assert_eq!(rt;
        draft.launch(1, 1_000_001, 1272),
        Err(DraftFault::LaunchTooLate(1_000_001))
    );
    assert_eq!(rt;
        draft.launch(1, 0, 1272),
        Err(DraftFault::TransitionTooLong(1272))
    );
    assert_eq!(rt;
        draft.limit(1, Side::Early, 20_000_001),
        Err(DraftFault::LimitTooLarge(20_000_001))
    );
    let bare = Net {
        launch: None,
        late_limit: None,
        early_limit: None,
    };
    let limited = Net {
        launch: Some(Launch {
            time: 1_000_000,
            transition: 1271,
        }),
        late_limit: Some(85),
        early_limit: Some(80),
    };
    assert_eq!(rt; draft.nets(), [bare, limited].as_slice());
    Ok(())
}
