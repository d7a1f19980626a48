// A step: what one call of a program adds, recorded over the steps and arcs before it. Steps name others by number, since
// a rack has no heap for boxes.
ghost use Rattle.std.specs.Prelude.{◌≡◌};
ghost use Rattle.runs.specs.declared.step.Step.TheVariants.{Repeat};

use algebra::label::Label;

#[derive(Clone, Copy, PartialEq, Eq, Debug)]
pub enum Step {
    Node { label: Label },
    Pause { label: Label },
    // its arcs, by the place of the first and their count in the table of recorded arcs
    Table { first: usize, count: usize },
    // the pieces, by their steps' numbers
    Choice { first: usize, second: usize },
    Sequence { first: usize, second: usize },
    Repeat { of: usize },
    Fork { first: usize, second: usize },
    // the first over the second
    Abort { first: usize, second: usize },
}

// What fills the places of a table where no step is recorded.
impl Default for Step {
    ghost is_default = { λ step. step ≡ Repeat 0 };

    fn default() -> Step {
        Step::Repeat { of: 0 }
    }
}
