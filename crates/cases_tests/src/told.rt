// What a report tells under each algebra.
use algebra::algebra::Algebra;
use algebra::best::Best;
use algebra::pair::Pair;
use algebra::ports::Ports;
use algebra::worst::Worst;
use std::process::Abort;

// What is awaited: a figure with the first tick that reaches it, or a figure alone. The pair's is worst's beside the
// ports.
#[derive(Clone, Copy)]
pub struct Figures {
    pub worst: (u32, usize),
    pub best: (u32, usize),
    pub ports: u32,
}

// Each algebra reads its own part of what is awaited. Worst and best read alike: a function of both would take the part and
// the cycles, and be as long as what it replaced.
pub trait Told: Algebra {
    // Are a report's figure and tick as awaited?
    fn told(self, rt: &impl Abort, tick: Option<usize>, awaited: Figures);
}

impl Told for Worst {
    fn told(self, rt: &impl Abort, tick: Option<usize>, awaited: Figures) {
        let (figure, first) = awaited.worst;
        assert_eq!(rt; (self.cycles, tick), (figure, Some(first)));
    }
}

impl Told for Best {
    fn told(self, rt: &impl Abort, tick: Option<usize>, awaited: Figures) {
        let (figure, first) = awaited.best;
        assert_eq!(rt; (self.cycles, tick), (figure, Some(first)));
    }
}

impl Told for Ports {
    fn told(self, rt: &impl Abort, tick: Option<usize>, awaited: Figures) {
        assert_eq!(rt; (self.bits, tick), (awaited.ports, None));
    }
}

impl Told for Pair<Worst, Ports> {
    fn told(self, rt: &impl Abort, tick: Option<usize>, awaited: Figures) {
        let (figure, _) = awaited.worst;
        let both = (self.first.cycles, self.second.bits);
        assert_eq!(rt; (both, tick), ((figure, awaited.ports), None));
    }
}
