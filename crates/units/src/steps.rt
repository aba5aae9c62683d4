// Steps of slope: the transition that a step stands for, and the step of a transition.
ghost use Rattle.std.specs.Prelude.{◌≡◌, ◌<◌, ◌≤◌, MatchOption};
ghost use Rattle.units.specs.Steps.{last_step, picoseconds, RoundedUp};

// How many steps there are.
pub const STEPS: usize = 32;

// The slowest step.
pub const LAST_STEP: u8 = 31;

// The picoseconds that the slowest step stands for.
pub const LONGEST_TRANSITION: u16 = 1271;

// Step s stands for 10 s + s s picoseconds.
const TRANSITIONS: [u16; STEPS] = [
    0, 11, 24, 39, 56, 75, 96, 119, 144, 171, 200, 231, 264, 299, 336, 375, 416, 459, 504, 551,
    600, 651, 704, 759, 816, 875, 936, 999, 1064, 1131, 1200, 1271,
];

fn picoseconds_of(step: u8) -> u16
    requires { step ≤ last_step }
    ensures { result ≡ picoseconds step }
{
    TRANSITIONS[step as usize]
}

// The transition that a step stands for, in picoseconds; none past the last step.
pub fn transition_of(step: u8) -> Option<u16>
    ensures { MatchOption result (last_step < step) (λ ps. (step ≤ last_step) × (ps ≡ picoseconds step)) }
{
    (step <= LAST_STEP).then(|| picoseconds_of(step))
}

// The smallest step that stands for at least that many picoseconds; the last step where none does.
pub fn step_of(transition: u16) -> u8
    ensures { RoundedUp transition result }
{
    (0..LAST_STEP)
        .find(|&step| picoseconds_of(step) >= transition)
        .unwrap_or(LAST_STEP)
}
