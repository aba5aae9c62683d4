// Models, steps and transitions.
use models::delay_model::DelayModel;
use models::derated::Derated;
use models::either::Either;
use models::faults::ModelFault;
use models::fixed::Fixed;
use models::point::Point;
use models::points::Points;
use std::alloc::Global;
use std::process::Abort;
use std::test::Fail;
use units::steps::{step_of, transition_of};

fn point(step: u8, delay: u16, output_step: u8) -> Point {
    Point {
        step,
        delay,
        output_step,
    }
}

#[test]
fn transitions(rt: HostRuntime) {
    for (transition, step) in [
        (0u16, 0u8),
        (1, 1),
        (11, 1),
        (12, 2),
        (56, 4),
        (57, 5),
        (1200, 30),
        (1201, 31),
        (1271, 31),
    ] {
        assert_eq!(rt; step_of(transition), step);
    }
    assert_eq!(rt; transition_of(4), Some(56));
    assert_eq!(rt; transition_of(31), Some(1271));
    assert_eq!(rt; transition_of(32), None);
}

#[test]
fn interpolates(rt: HostRuntime) -> Result<(), Fail> {
    let mut model = Points::new(rt.alloc())?;
    assert_eq!(rt;
        model.add(&[point(0, 100, 3), point(10, 125, 8), point(31, 200, 20)]),
        Ok(0)
    );
    for (step, figures) in [
        (0u8, (100u32, 3u8)),
        (7, (117, 6)),
        (10, (125, 8)),
        (11, (128, 8)),
        (20, (160, 13)),
        (31, (200, 20)),
        (32, (0, 0)),
    ] {
        assert_eq!(rt; model.figures(0, step), figures);
    }
    assert_eq!(rt; model.figures(1, 0), (0, 0));
    assert_eq!(rt; model.points(1).is_none(), true);
    Ok(())
}

#[test]
fn points_stay_readable(rt: HostRuntime) -> Result<(), Fail> {
    let mut model = Points::new(rt.alloc())?;
    assert_eq!(rt; model.add(&[point(0, 10, 1), point(31, 41, 10)]), Ok(0));
    assert_eq!(rt;
        model.add(&[point(0, 10, 1), point(31, 9, 10)]),
        Err(ModelFault::DelayFalls(1))
    );
    assert_eq!(rt;
        model.add(&[point(0, 10, 1), point(5, 10, 1), point(31, 10, 1)]),
        Ok(1)
    );
    assert_eq!(rt; model.count(), 2);
    let points = model.points(1).ok_or("kind 1")?;
    assert!(rt; points.len() == 3);
    assert_eq!(rt; points[1], point(5, 10, 1));
    Ok(())
}

fn two_fixed(rt: &impl Abort, heap: Global) -> Result<Fixed, Fail> {
    let mut model = Fixed::new(heap)?;
    assert_eq!(rt; model.add(60, 20), Ok(0));
    assert_eq!(rt; model.add(65535, 31), Ok(1));
    assert_eq!(rt; model.add(1, 32), Err(ModelFault::OutputStepTooLarge(0)));
    Ok(model)
}

#[test]
fn derates(rt: HostRuntime) -> Result<(), Fail> {
    let mut model = Derated::new(two_fixed(&rt, rt.alloc())?);
    assert_eq!(rt; model.figures(0, 31), (60, 20));
    assert_eq!(rt; model.set_percent(110), Ok(()));
    assert_eq!(rt; model.set_percent(0), Err(ModelFault::Percent(0)));
    assert_eq!(rt; model.set_percent(1001), Err(ModelFault::Percent(1001)));
    assert_eq!(rt; model.figures(0, 0), (66, 20));
    assert_eq!(rt; model.figures(1, 0), (65535, 31));
    let mut pile = Derated::new(model);
    assert_eq!(rt; pile.set_percent(50), Ok(()));
    assert_eq!(rt; pile.figures(0, 0), (33, 20));
    assert_eq!(rt; pile.count(), 2);
    Ok(())
}

#[test]
fn chooses(rt: HostRuntime) -> Result<(), Fail> {
    let left: Either<Fixed, Points> = Either::Left(two_fixed(&rt, rt.alloc())?);
    let right: Either<Fixed, Points> = Either::Right(Points::new(rt.alloc())?);
    assert_eq!(rt; left.figures(0, 5), (60, 20));
    assert_eq!(rt; left.count(), 2);
    assert_eq!(rt; right.figures(0, 5), (0, 0));
    assert_eq!(rt; right.count(), 0);
    Ok(())
}

#[test]
fn holds_32_kinds(rt: HostRuntime) -> Result<(), Fail> {
    let mut model = Points::new(rt.alloc())?;
    for kind in 0..32u8 {
        assert_eq!(rt; model.add(&[point(0, 10, 1), point(31, 10, 1)]), Ok(kind));
    }
    assert_eq!(rt; model.add(&[]), Err(ModelFault::KindsFull));
    assert_eq!(rt; model.count(), 32);
    Ok(())
}
