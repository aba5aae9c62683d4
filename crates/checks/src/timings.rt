// Timings under every kind of model, into areas that are longer than needed.
use block::faults::TimeFault;
use block::settled_block::SettledBlock;
use models::delay_model::DelayModel;
use models::derated::Derated;
use models::fixed::Fixed;
use models::point::Point;
use models::points::Points;
use network::draft::{Draft, Side};
use std::alloc::Global;
use std::process::Abort;
use std::test::Fail;
use timing::answers::{Answer, SignalRecord};
use timing::faults::TimingFault;
use units::senses::{Early, Late, Sense};

// What stands in the areas before a timing.
const OLD: SignalRecord = SignalRecord {
    kept: true,
    time: 77,
    arc: 7,
    step: 7,
};

// Net 0, launched at 10, leads to net 1 by arc 0 and to net 2 by arc 2, net 1 to net 2 by arc 1. Net 1 is launched at 200 and
// has limits too; net 2 has the limits late 150 and early 100.
fn triangle(heap: Global) -> Result<SettledBlock, Fail> {
    let mut draft = Draft::new(heap)?;
    for _ in 0..3 {
        draft.net()?;
    }
    draft.arc(0, 1, 0)?;
    draft.arc(1, 2, 1)?;
    draft.arc(0, 2, 1)?;
    draft.launch(0, 10, 0)?;
    draft.launch(1, 200, 0)?;
    draft.limit(1, Side::Late, 500)?;
    draft.limit(2, Side::Late, 150)?;
    draft.limit(2, Side::Early, 100)?;
    Ok(SettledBlock::settle(draft, 0))
}

// Times the triangle into areas that are three entries longer than needed; answers the slacks and the path too.
fn timed<M: DelayModel, S: Sense + Drop>(
    rt: &impl Abort,
    heap: Global,
    model: &M,
    sense: S,
) -> Result<(Result<Answer, TimeFault>, [i32; 6], [u16; 258]), Fail> {
    let block = triangle(heap)?;
    let mut signals = [OLD; 99];
    let mut required = [77; 99];
    let mut slacks = [77; 6];
    let mut path = [77; 258];
    let answer = block.time(
        model,
        sense,
        &mut signals,
        &mut required,
        &mut slacks,
        &mut path,
    );
    assert_eq!(rt; (signals[96], signals[98]), (OLD, OLD));
    assert_eq!(rt; (required[96], required[98]), (77, 77));
    Ok((answer, slacks, path))
}

// Checks worst slack, start net, the one arc of the path and the three slacks; entries past them are the old ones.
fn check_timed(
    rt: &impl Abort,
    timed: (Result<Answer, TimeFault>, [i32; 6], [u16; 258]),
    worst: (i32, u16, u16),
    slacks: (i32, i32, i32),
) {
    let (answer, area, path) = timed;
    assert_eq!(rt;
        answer,
        Ok(Answer {
            worst_slack: worst.0,
            start: worst.1,
            arcs: 1,
            carried: 4,
        })
    );
    assert_eq!(rt; (path[0], path[1], path[257]), (worst.2, 77, 77));
    assert_eq!(rt; (area[0], area[1], area[2]), slacks);
    assert_eq!(rt; (area[3], area[4], area[5]), (77, 77, 77));
}

fn two_kinds(rt: &impl Abort, heap: Global) -> Result<Fixed, Fail> {
    let mut model = Fixed::new(heap)?;
    assert_eq!(rt; model.add(30, 4), Ok(0));
    assert_eq!(rt; model.add(60, 2), Ok(1));
    Ok(model)
}

#[test]
fn fixed(rt: HostRuntime) -> Result<(), Fail> {
    let model = two_kinds(&rt, rt.alloc())?;
    let late = timed(&rt, rt.alloc(), &model, Late)?;
    check_timed(&rt, late, (-110, 1, 1), (50, -110, -110));
    let early = timed(&rt, rt.alloc(), &model, Early)?;
    check_timed(&rt, early, (-30, 0, 2), (-30, 0, -30));
    Ok(())
}

#[test]
fn derated(rt: HostRuntime) -> Result<(), Fail> {
    let mut model = Derated::new(two_kinds(&rt, rt.alloc())?);
    assert_eq!(rt; model.set_percent(200), Ok(()));
    let late = timed(&rt, rt.alloc(), &model, Late)?;
    check_timed(&rt, late, (-170, 1, 1), (-40, -170, -170));
    let early = timed(&rt, rt.alloc(), &model, Early)?;
    check_timed(&rt, early, (30, 0, 2), (30, 90, 30));
    Ok(())
}

// Half of twice the delays of points gives the figures of the fixed model.
#[test]
fn derated_pile_of_points(rt: HostRuntime) -> Result<(), Fail> {
    let mut points = Points::new(rt.alloc())?;
    for (delay, output_step) in [(30, 4), (60, 2)] {
        let first = Point {
            step: 0,
            delay,
            output_step,
        };
        let last = Point {
            step: 31,
            delay,
            output_step,
        };
        points.add(&[first, last])?;
    }
    let mut double = Derated::new(points);
    assert_eq!(rt; double.set_percent(200), Ok(()));
    let mut half = Derated::new(double);
    assert_eq!(rt; half.set_percent(50), Ok(()));
    let late = timed(&rt, rt.alloc(), &half, Late)?;
    check_timed(&rt, late, (-110, 1, 1), (50, -110, -110));
    let early = timed(&rt, rt.alloc(), &half, Early)?;
    check_timed(&rt, early, (-30, 0, 2), (-30, 0, -30));
    Ok(())
}

#[test]
fn kind_not_held(rt: HostRuntime) -> Result<(), Fail> {
    let mut model = Fixed::new(rt.alloc())?;
    assert_eq!(rt; model.add(30, 4), Ok(0));
    let (answer, slacks, path) = timed(&rt, rt.alloc(), &model, Late)?;
    assert_eq!(rt; answer, Err(TimeFault::Timing(TimingFault::KindNotHeld(1))));
    assert_eq!(rt; (slacks[0], slacks[2], path[0]), (77, 77, 77));
    Ok(())
}
