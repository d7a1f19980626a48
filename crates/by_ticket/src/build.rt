// Two threads built by ticket, side by side. Whatever is refused, every ticket is spent.
ghost use Rattle.std.specs.Prelude.{◌≡◌, ℕ, ◌≢◌, List, IfOk, OnOk};
ghost use Rattle.shelves.specs.declared.call.Pairing.TheVariants as kind;
ghost use Rattle.shelves.specs.Calls.{pair, accepted, Event};
ghost use Rattle.shelves.specs.Cores.{CoreAnswers};
ghost use Rattle.shelves.specs.Held.{state_of};
ghost use Rattle.shelves.specs.History.{Made};
ghost use Rattle.tickets.specs.Tickets.{NamesIn};
ghost use Rattle.by_ticket.specs.Threads.{side_by_side, HoldsPlan};

use algebra::algebra::Algebra;
use algebra::arc::Arc;
use shelves::refusal::Refusal;
use tickets::ticket::{BothBack, Built, Ticket};
use tickets::ticket_rack::TicketRack;

// Clears a ticket that names a filled shelf, which is never refused.
pub fn end<V: Algebra>(rack: &mut TicketRack<V>, ticket: Ticket)
    requires { NamesIn V.model V.means rack.old.core ticket }
    ensures { (other : Ticket) → other.shelf ≢ ticket.shelf → NamesIn V.model V.means rack.old.core other → NamesIn V.model V.means rack.new.core other }
{
    rack.clear(ticket).unwrap();
}

// Forks two threads. Where that is refused, both are cleared.
fn fork<V: Algebra>(
    rack: &mut TicketRack<V>,
    first: Ticket,
    second: Ticket,
) -> Result<Ticket, Refusal>
    requires { (second.shelf ≢ first.shelf) × ((NamesIn V.model V.means rack.old.core first) × (NamesIn V.model V.means rack.old.core second)) }
    ensures names { IfOk result (λ ticket. NamesIn V.model V.means rack.new.core ticket) }
    ensures ticket { IfOk result (λ ticket. ticket ≡ first) }
    ensures answers { OnOk result ((n : ℕ) × CoreAnswers V.model V.means (pair kind.Fork first.shelf second.shelf) (accepted n) rack.old.core rack.new.core) }
{
    match rack.fork(first, second) {
        Ok(Built { ticket, number: _ }) => Ok(ticket),
        Err(BothBack { first, second, why }) => {
            end(rack, first);
            end(rack, second);
            Err(why)
        }
    }
}

// Both threads, forked.
pub fn build<V: Algebra>(
    rack: &mut TicketRack<V>,
    sweep: &[Arc],
    radar: &[Arc],
) -> Result<Ticket, Refusal>
    ensures names { IfOk result (λ ticket. NamesIn V.model V.means rack.new.core ticket) }
    ensures plan { IfOk result (λ ticket. (h : List (Event V.model)) → Made V.model h (state_of V.model V.means rack.old.core) → HoldsPlan V.model (state_of V.model V.means rack.new.core) ticket.shelf (side_by_side sweep.now radar.now)) }
{
    let Built {
        ticket: first,
        number: _,
    } = rack.table(0, sweep)?;
    match rack.table(1, radar) {
        Ok(
            Built {
                ticket: second,
                number: _,
            },
        ) => fork(rack, first, second),
        Err(why) => {
            end(rack, first);
            Err(why)
        }
    }
}
