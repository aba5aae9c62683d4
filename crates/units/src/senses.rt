// The late and the early sense: when a figure is at least as bad as another, and slack.
ghost use Rattle.std.specs.Prelude.{◌≡◌, ◌⊎◌, ℤ, pos, refl};
ghost use Rattle.std.proofs.Common.{inl, inr};
ghost use Rattle.units.specs.Senses.{Order, Lawful, late_order, early_order};
ghost use Rattle.units.specs.Laws.{late_lawful, early_lawful};

// What a sense compares: times, which are never negative, and required times; each has a number of its own.
pub trait Figure: Copy {
    ghost value: { Self → ℤ };

    fn value(self) -> i64
        ensures { result ≡ value self };
}

impl Figure for u32 {
    ghost value = { pos };

    fn value(self) -> i64 {
        i64::from(self)
    }
}

impl Figure for i32 {
    ghost value = { λ x. x };

    fn value(self) -> i64 {
        i64::from(self)
    }
}

pub trait Sense {
    ghost order: { Order };

    // Whether this is the late sense.
    fn is_late() -> bool
        ensures { result ≡ order.is_late };

    // Whether the figure `a` is at least as bad as `b`.
    fn as_bad<F: Figure>(a: F, b: F) -> bool
        ensures { result ≡ order.as_bad (F.Figure.value a) (F.Figure.value b) };

    // The slack of a time against a required time.
    fn slack(time: u32, required: i32) -> i64
        ensures { result ≡ order.slack (pos time) required };

    ghost lawful: { Lawful order };

    // There are two senses.
    ghost late_or_early: { (order ≡ late_order) ⊎ (order ≡ early_order) };
}

#[derive(Clone, Copy)]
pub struct Late;

impl Sense for Late {
    ghost order = { late_order };

    ghost lawful = { late_lawful };

    ghost late_or_early = { inl refl };

    fn is_late() -> bool {
        true
    }

    fn as_bad<F: Figure>(a: F, b: F) -> bool {
        a.value() >= b.value()
    }

    fn slack(time: u32, required: i32) -> i64 {
        i64::from(required) - i64::from(time)
    }
}

#[derive(Clone, Copy)]
pub struct Early;

impl Sense for Early {
    ghost order = { early_order };

    ghost lawful = { early_lawful };

    ghost late_or_early = { inr refl };

    fn is_late() -> bool {
        false
    }

    fn as_bad<F: Figure>(a: F, b: F) -> bool {
        a.value() <= b.value()
    }

    fn slack(time: u32, required: i32) -> i64 {
        i64::from(time) - i64::from(required)
    }
}
