// A situation: all that a rule carries from tick to tick. Each rule uses some of the fields and leaves the others at 0.
// One type for all rules, since `at` and its theorems are over it; what a mark means, each rule says.
#[derive(Clone, Copy, Debug, Default, PartialEq, Eq)]
pub struct Situation {
    // the phases of the two pieces
    pub a: usize,
    pub b: usize,
    // a set of phases, or of states, one bit for each
    pub set: u64,
    // a mark for each side, or for tick 0
    pub wa: bool,
    pub wb: bool,
}
