// The numbers that stand for figures, and for none, in the areas of required times and slacks.
ghost use Rattle.std.specs.Prelude.{◌≡◌};
ghost use Rattle.timing.specs.Areas.{figure, entry_of};

use crate::answers::NONE;

// The figure that a number of an area stands for.
pub fn figure(entry: i32) -> Option<i32>
    ensures { result ≡ figure entry }
{
    (entry != NONE).then_some(entry)
}

// The number of an area that stands for a figure.
pub fn entry_of(figure: Option<i32>) -> i32
    ensures { result ≡ entry_of figure }
{
    figure.unwrap_or(NONE)
}
