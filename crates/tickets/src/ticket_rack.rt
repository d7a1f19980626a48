// A rack whose calls take tickets. At another rack a ticket is only a number, so every question is asked all the same.
ghost use Rattle.std.specs.Prelude.{◌≡◌, ◌≤◌, [], ◌∷◌, length, IfOk, IfErr, MatchResult, OnErr};
ghost use Rattle.shelves.specs.declared.call.Pairing.TheVariants as kind;
ghost use Rattle.shelves.specs.Calls.{node as node_call, pause as pause_call, table as table_call, loop as loop_call, clear as clear_call, report as report_call};
ghost use Rattle.shelves.specs.Changing.{Changing};
ghost use Rattle.shelves.specs.Cores.{CoreOpens, CoreAnswers, CoreRuns};
ghost use Rattle.shelves.specs.Filling.{filled_by};
ghost use Rattle.shelves.specs.Held.{call_of};
ghost use Rattle.shelves.specs.Told.{shown};
ghost use Rattle.tickets.specs.Tickets.{loop_reply, clear_reply, NamesIn, LeafGives, PairGives};

use crate::ticket::{Back, BothBack, Built, Ticket};
use algebra::algebra::Algebra;
use algebra::arc::Arc;
use algebra::label::Label;
use shelves::answering::look;
use shelves::call::{Call, Pairing};
use shelves::changing::change;
use shelves::core_state::Core;
use shelves::listing::answer_all;
use shelves::opening::open;
use shelves::refusal::Refusal;
use shelves::reply::Reply;
use shelves::report::Report;

#[derive(Drop)]
pub struct TicketRack<'a, V: Algebra> {
    core: Core<'a, V>,
}

// `CoreAnswers call reply before after` is the whole promise of a call: specs/Promise.antt of `shelves`, docs/PROMISE.md in words.
// Each call has a name of its own, since `choice(a, b)` says more plainly what is meant than `pair(Choice, a, b)`; what both
// racks share is said once, in `shelves`.
impl<'a, V: Algebra> TicketRack<'a, V> {
    // A new rack over lent cells, after `enough` said yes of them. The history begins.
    pub fn open(cells: &'a mut [Option<V>]) -> TicketRack<'a, V>
        requires { 4096 ≤ length cells.old }
        ensures { CoreOpens V.model V.means cells.old result.core }
    {
        TicketRack { core: open(cells) }
    }

    // The ticket of a new leaf names the shelf that the call fills.
    fn leaf(&mut self, call: Call, shelf: u8) -> Result<Built, Refusal>
        requires leaf { Changing (call_of call) }
        requires fills { filled_by (call_of call) ≡ shelf ∷ [] }
        ensures { LeafGives V.model V.means (call_of call.entry) shelf result self.old.core self.new.core }
    {
        let number = change(&mut self.core, call)?;
        Ok(Built {
            ticket: Ticket { shelf },
            number,
        })
    }

    pub fn node(&mut self, shelf: u8, label: Label) -> Result<Built, Refusal>
        ensures { LeafGives V.model V.means (node_call shelf label) shelf result self.old.core self.new.core }
    {
        self.leaf(Call::Node { shelf, label }, shelf)
    }

    pub fn pause(&mut self, shelf: u8, label: Label) -> Result<Built, Refusal>
        ensures { LeafGives V.model V.means (pause_call shelf label) shelf result self.old.core self.new.core }
    {
        self.leaf(Call::Pause { shelf, label }, shelf)
    }

    pub fn table(&mut self, shelf: u8, arcs: &[Arc]) -> Result<Built, Refusal>
        ensures { LeafGives V.model V.means (table_call shelf arcs.now) shelf result self.old.core self.new.core }
    {
        self.leaf(Call::Table { shelf, arcs }, shelf)
    }

    // Spends the second ticket; the first is then the result's. Refused, it hands both back.
    fn pair(&mut self, kind: Pairing, first: Ticket, second: Ticket) -> Result<Built, BothBack>
        ensures { PairGives V.model V.means kind first second result self.old.core self.new.core }
    {
        let call = Call::Pair {
            kind,
            first: first.shelf,
            second: second.shelf,
        };
        // no `?` here and below, since each arm takes the tickets
        match change(&mut self.core, call) {
            Ok(number) => {
                let Ticket { shelf: _ } = second;
                Ok(Built {
                    ticket: first,
                    number,
                })
            }
            Err(why) => Err(BothBack { first, second, why }),
        }
    }

    pub fn choice(&mut self, first: Ticket, second: Ticket) -> Result<Built, BothBack>
        ensures { PairGives V.model V.means kind.Choice first second result self.old.core self.new.core }
    {
        self.pair(Pairing::Choice, first, second)
    }

    pub fn sequence(&mut self, first: Ticket, second: Ticket) -> Result<Built, BothBack>
        ensures { PairGives V.model V.means kind.Sequence first second result self.old.core self.new.core }
    {
        self.pair(Pairing::Sequence, first, second)
    }

    pub fn fork(&mut self, first: Ticket, second: Ticket) -> Result<Built, BothBack>
        ensures { PairGives V.model V.means kind.Fork first second result self.old.core self.new.core }
    {
        self.pair(Pairing::Fork, first, second)
    }

    pub fn abort(&mut self, first: Ticket, second: Ticket) -> Result<Built, BothBack>
        ensures { PairGives V.model V.means kind.Abort first second result self.old.core self.new.core }
    {
        self.pair(Pairing::Abort, first, second)
    }

    // The call loop, whose name is a word of the language.
    pub fn repeat(&mut self, ticket: Ticket) -> Result<Built, Back>
        ensures answers { CoreAnswers V.model V.means (loop_call ticket.shelf) (loop_reply V.model result) self.old.core self.new.core }
        ensures ticket { MatchResult result (λ built. built.ticket ≡ ticket) (λ back. back.ticket ≡ ticket) }
        ensures names { IfOk result (λ built. NamesIn V.model V.means self.new.core built.ticket) }
    {
        let shelf = ticket.shelf;
        match change(&mut self.core, Call::Loop { shelf }) {
            Ok(number) => Ok(Built { ticket, number }),
            Err(why) => Err(Back { ticket, why }),
        }
    }

    // Spends the ticket.
    pub fn clear(&mut self, ticket: Ticket) -> Result<usize, Back>
        ensures answers { CoreAnswers V.model V.means (clear_call ticket.shelf) (clear_reply V.model result) self.old.core self.new.core }
        ensures ticket { IfErr result (λ back. back.ticket ≡ ticket) }
        ensures cleared { NamesIn V.model V.means self.old.core ticket → OnErr result (⊥) }
    {
        let shelf = ticket.shelf;
        match change(&mut self.core, Call::Clear { shelf }) {
            Ok(number) => {
                let Ticket { shelf: _ } = ticket;
                Ok(number)
            }
            Err(why) => Err(Back { ticket, why }),
        }
    }

    // Report only looks, at the rack and at the ticket.
    pub fn report(&self, ticket: &Ticket) -> Result<Report<V>, Refusal>
        ensures { CoreAnswers V.model V.means (report_call ticket.now.shelf) (shown V.model V.means result) self.now.core self.now.core }
    {
        look(&self.core, ticket.shelf)
    }

    // A whole list of calls, by the shelves that tickets would name, as many as there are replies lent for, and how many.
    pub fn run(&mut self, calls: &[Call], replies: &mut [Reply<V>]) -> usize
        ensures { CoreRuns V.model V.means calls.now replies.old replies.new result self.old.core self.new.core }
    {
        answer_all(&mut self.core, calls, replies)
    }
}
