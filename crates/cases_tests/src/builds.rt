// Builds by ticket, each with its numbers, the shelf of its ticket and its report.
use crate::deed::{arc, cost};
use crate::script::reports;
use crate::told::*;
use algebra::arc::OUT;
use algebra::best::Best;
use algebra::ports::Ports;
use algebra::worst::Worst;
use shelves::opening::enough;
use std::process::Abort;
use std::test::*;
use tickets::ticket::{Built, Ticket};
use tickets::ticket_rack::TicketRack;

// The ticket of an accepted call, with number and shelf as awaited. Tickets cannot be let fall, so a call that is refused
// where it should not be ends the test here.
pub fn ticket<E>(rt: &impl Abort, answer: Result<Built, E>, awaited: (usize, u8)) -> Ticket {
    match answer {
        Ok(Built { ticket, number }) => {
            assert_eq!(rt; (number, ticket.shelf()), awaited);
            ticket
        }
        Err(_) => panic!(rt; "refused"),
    }
}

// Spends a ticket that names a filled shelf.
pub fn cleared<V: Told>(rt: &impl Abort, rack: &mut TicketRack<V>, ticket: Ticket) {
    match rack.clear(ticket) {
        Ok(number) => assert_eq!(rt; number, 0),
        Err(_) => panic!(rt; "refused"),
    }
}

// A node and a pause in sequence, then in a loop.
fn in_sequence<V: Told>(rt: &impl Abort, cells: &mut [Option<V>]) -> Result<(), Fail> {
    assert!(rt; enough(cells));
    let mut rack = TicketRack::open(cells);
    let node = ticket(rt, rack.node(0, cost(7)), (0, 0));
    let pause = ticket(rt, rack.pause(1, cost(10)), (0, 1));
    let both = ticket(rt, rack.sequence(node, pause), (3, 0));
    let once = rack.report(&both);
    let both = ticket(rt, rack.repeat(both), (2, 0));
    let again = rack.report(&both);
    cleared(rt, &mut rack, both);
    let awaited = Figures {
        worst: (17, 0),
        best: (0, 1),
        ports: 0x480,
    };
    reports(rt, once, awaited, (2, 1))?;
    let awaited = Figures {
        worst: (17, 0),
        best: (17, 0),
        ports: 0x480,
    };
    reports(rt, again, awaited, (0, 1))
}

#[test]
fn sequence(rt: HostRuntime) -> Result<(), Fail> {
    in_sequence::<Worst>(&rt, &mut [None; 4096])?;
    in_sequence::<Best>(&rt, &mut [None; 4096])?;
    in_sequence::<Ports>(&rt, &mut [None; 4096])
}

// A pause or a node.
fn of_two<V: Told>(rt: &impl Abort, cells: &mut [Option<V>]) -> Result<(), Fail> {
    assert!(rt; enough(cells));
    let mut rack = TicketRack::open(cells);
    let pause = ticket(rt, rack.pause(3, cost(10)), (0, 3));
    let node = ticket(rt, rack.node(1, cost(40)), (0, 1));
    let either = ticket(rt, rack.choice(pause, node), (3, 3));
    let report = rack.report(&either);
    cleared(rt, &mut rack, either);
    let awaited = Figures {
        worst: (40, 0),
        best: (0, 1),
        ports: 0x500,
    };
    reports(rt, report, awaited, (2, 1))
}

#[test]
fn choice(rt: HostRuntime) -> Result<(), Fail> {
    of_two::<Worst>(&rt, &mut [None; 4096])?;
    of_two::<Best>(&rt, &mut [None; 4096])?;
    of_two::<Ports>(&rt, &mut [None; 4096])
}

// A table of two states that take turns, 4 and 9, beside a pause of 5 that is over after tick 0: 9, 9, 4, 9, 4, and so on.
fn side_by_side<V: Told>(rt: &impl Abort, cells: &mut [Option<V>]) -> Result<(), Fail> {
    assert!(rt; enough(cells));
    let mut rack = TicketRack::open(cells);
    let turns = ticket(rt, rack.table(5, &[arc(0, 1, 4), arc(1, 0, 9)]), (2, 5));
    let pause = ticket(rt, rack.pause(2, cost(5)), (0, 2));
    let fork = ticket(rt, rack.fork(turns, pause), (4, 5));
    let report = rack.report(&fork);
    cleared(rt, &mut rack, fork);
    let awaited = Figures {
        worst: (9, 0),
        best: (4, 2),
        ports: 0x230,
    };
    reports(rt, report, awaited, (1, 2))
}

#[test]
fn fork(rt: HostRuntime) -> Result<(), Fail> {
    side_by_side::<Worst>(&rt, &mut [None; 4096])?;
    side_by_side::<Best>(&rt, &mut [None; 4096])?;
    side_by_side::<Ports>(&rt, &mut [None; 4096])
}

// A watch of 6 that may lead out at 20 in any tick, over a pause of 30.
fn watched<V: Told>(rt: &impl Abort, cells: &mut [Option<V>]) -> Result<(), Fail> {
    assert!(rt; enough(cells));
    let mut rack = TicketRack::open(cells);
    let watch = ticket(
        rt,
        rack.table(15, &[arc(0, 0, 6), arc(0, OUT, 20)]),
        (1, 15),
    );
    let pause = ticket(rt, rack.pause(0, cost(30)), (0, 0));
    let both = ticket(rt, rack.abort(watch, pause), (3, 15));
    let report = rack.report(&both);
    cleared(rt, &mut rack, both);
    let awaited = Figures {
        worst: (36, 0),
        best: (6, 1),
        ports: 0x4010_0040,
    };
    reports(rt, report, awaited, (2, 1))
}

#[test]
fn abort(rt: HostRuntime) -> Result<(), Fail> {
    watched::<Worst>(&rt, &mut [None; 4096])?;
    watched::<Best>(&rt, &mut [None; 4096])?;
    watched::<Ports>(&rt, &mut [None; 4096])
}
