// A rack whose calls name shelves by number.
ghost use Rattle.std.specs.Prelude.{◌≤◌, length};
ghost use Rattle.shelves.specs.declared.call.Pairing.TheVariants as kind;
ghost use Rattle.shelves.specs.Calls.{node as node_call, pause as pause_call, table as table_call, pair as pair_call, loop as loop_call, clear as clear_call, report as report_call};
ghost use Rattle.shelves.specs.Told.{shown};
ghost use Rattle.shelves.specs.Changing.{answered};
ghost use Rattle.shelves.specs.Cores.{CoreOpens, CoreAnswers, CoreRuns};

use algebra::algebra::Algebra;
use algebra::arc::Arc;
use algebra::label::Label;
use shelves::answering::look;
use shelves::call::{Call, Pairing};
use shelves::changing::change;
use shelves::core_state::Core;
use shelves::listing::answer_all;
use shelves::opening::open;
use shelves::refusal::Refusal;
use shelves::reply::Reply;
use shelves::report::Report;

#[derive(Drop)]
pub struct Rack<'a, V: Algebra> {
    core: Core<'a, V>,
}

// `CoreAnswers call reply before after` is the whole promise of a call: specs/Promise.antt of `shelves`, docs/PROMISE.md in words.
// Each call has a name of its own, since `choice(a, b)` says more plainly what is meant than `pair(Choice, a, b)`; what both
// racks share is said once, in `shelves`.
impl<'a, V: Algebra> Rack<'a, V> {
    // A new rack over lent cells, after `enough` said yes of them. The history begins.
    pub fn open(cells: &'a mut [Option<V>]) -> Rack<'a, V>
        requires { 4096 ≤ length cells.old }
        ensures { CoreOpens V.model V.means cells.old result.core }
    {
        Rack { core: open(cells) }
    }

    pub fn node(&mut self, shelf: u8, label: Label) -> Result<usize, Refusal>
        ensures { CoreAnswers V.model V.means (node_call shelf label) (answered V.model result) self.old.core self.new.core }
    {
        change(&mut self.core, Call::Node { shelf, label })
    }

    pub fn pause(&mut self, shelf: u8, label: Label) -> Result<usize, Refusal>
        ensures { CoreAnswers V.model V.means (pause_call shelf label) (answered V.model result) self.old.core self.new.core }
    {
        change(&mut self.core, Call::Pause { shelf, label })
    }

    pub fn table(&mut self, shelf: u8, arcs: &[Arc]) -> Result<usize, Refusal>
        ensures { CoreAnswers V.model V.means (table_call shelf arcs.now) (answered V.model result) self.old.core self.new.core }
    {
        change(&mut self.core, Call::Table { shelf, arcs })
    }

    // Two shelves put together: the result is on the first, and the second is emptied.
    fn pair(&mut self, kind: Pairing, first: u8, second: u8) -> Result<usize, Refusal>
        ensures { CoreAnswers V.model V.means (pair_call kind first second) (answered V.model result) self.old.core self.new.core }
    {
        let call = Call::Pair {
            kind,
            first,
            second,
        };
        change(&mut self.core, call)
    }

    pub fn choice(&mut self, first: u8, second: u8) -> Result<usize, Refusal>
        ensures { CoreAnswers V.model V.means (pair_call kind.Choice first second) (answered V.model result) self.old.core self.new.core }
    {
        self.pair(Pairing::Choice, first, second)
    }

    pub fn sequence(&mut self, first: u8, second: u8) -> Result<usize, Refusal>
        ensures { CoreAnswers V.model V.means (pair_call kind.Sequence first second) (answered V.model result) self.old.core self.new.core }
    {
        self.pair(Pairing::Sequence, first, second)
    }

    pub fn fork(&mut self, first: u8, second: u8) -> Result<usize, Refusal>
        ensures { CoreAnswers V.model V.means (pair_call kind.Fork first second) (answered V.model result) self.old.core self.new.core }
    {
        self.pair(Pairing::Fork, first, second)
    }

    pub fn abort(&mut self, first: u8, second: u8) -> Result<usize, Refusal>
        ensures { CoreAnswers V.model V.means (pair_call kind.Abort first second) (answered V.model result) self.old.core self.new.core }
    {
        self.pair(Pairing::Abort, first, second)
    }

    // The call loop, whose name is a word of the language.
    pub fn repeat(&mut self, shelf: u8) -> Result<usize, Refusal>
        ensures { CoreAnswers V.model V.means (loop_call shelf) (answered V.model result) self.old.core self.new.core }
    {
        change(&mut self.core, Call::Loop { shelf })
    }

    pub fn clear(&mut self, shelf: u8) -> Result<usize, Refusal>
        ensures { CoreAnswers V.model V.means (clear_call shelf) (answered V.model result) self.old.core self.new.core }
    {
        change(&mut self.core, Call::Clear { shelf })
    }

    // Report only looks.
    pub fn report(&self, shelf: u8) -> Result<Report<V>, Refusal>
        ensures { CoreAnswers V.model V.means (report_call shelf) (shown V.model V.means result) self.now.core self.now.core }
    {
        look(&self.core, shelf)
    }

    // A whole list of calls, one after the other, as many as there are replies lent for, and how many.
    pub fn run(&mut self, calls: &[Call], replies: &mut [Reply<V>]) -> usize
        ensures { CoreRuns V.model V.means calls.now replies.old replies.new result self.old.core self.new.core }
    {
        answer_all(&mut self.core, calls, replies)
    }
}
