// A label: what one piece of code takes of a tick.
ghost use Rattle.std.specs.Prelude.{◌≤◌, Decides};

// The most cycles that a label may have.
pub const MOST_CYCLES: u32 = 1_073_741_823;

#[derive(Clone, Copy, PartialEq, Eq, Debug, Default)]
pub struct Label {
    pub cycles: u32,
    // a set of ports, one bit for each
    pub ports: u32,
}

impl Label {
    // Are the cycles within the limit?
    pub fn allowed(&self) -> bool
        ensures { Decides result (self.now.cycles ≤ 1073741823) }
    {
        self.cycles <= MOST_CYCLES
    }
}
