// Phases: where a tick falls in a shape. That k is a phase is asked by one word: a type for it would carry a shape in every
// situation.
ghost use Rattle.std.specs.Prelude.{◌≡◌, ℕ, ◌+◌, ◌≤◌};
ghost use Rattle.rows.specs.Phases.{after as phase_after, IsPhase, Phases};

use crate::shape::Shape;

impl Shape {
    // How many phases there are.
    pub fn size(&self) -> usize
        ensures { result ≡ self.now.transient + self.now.period }
    {
        self.transient + self.period
    }

    // The phase after k.
    pub fn after(&self, k: usize) -> usize
        requires { IsPhase self.now k }
        ensures value { result ≡ phase_after self.now.transient self.now.period k }
        ensures within { IsPhase self.now result }
    {
        if k + 1 < self.transient + self.period {
            k + 1
        } else {
            self.transient
        }
    }
}

// Every tick has a phase that indexes its row, and phases go round from the transient on.
pub fn phases_stand()
    ensures { (transient period : ℕ) → 1 ≤ period → Phases transient period }
{}
