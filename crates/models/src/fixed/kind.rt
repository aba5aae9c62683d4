// A kind of one delay and one output step, which hold at every step.
ghost use Rattle.std.specs.Prelude.{◌≤◌};
ghost use Rattle.units.specs.Steps.{last_step};
ghost use Rattle.models.specs.Meaning.{max_delay};

#[derive(Drop)]
pub struct FixedKind {
    pub(super) delay: u32,
    pub(super) output_step: u8,
    ghost delay_fits: { delay ≤ max_delay },
    ghost output_step_fits: { output_step ≤ last_step },
}
