// Calls by ticket that are refused: they change nothing and hand their tickets back.
use crate::builds::{cleared, ticket};
use crate::deed::{cost, ring};
use algebra::worst::Worst;
use shelves::call::Call;
use shelves::refusal::Refusal;
use shelves::refusal::Refusal::*;
use shelves::reply::Answer::Accepted;
use std::process::Abort;
use std::test::*;
use tickets::ticket::{Back, BothBack, Built, Ticket};
use tickets::ticket_rack::TicketRack;

// The ticket of a refused call.
fn back<T>(rt: &impl Abort, answer: Result<T, Back>, no: Refusal) -> Ticket {
    match answer {
        Ok(_) => panic!(rt; "accepted"),
        Err(Back { ticket, why }) => {
            assert_eq!(rt; why, no);
            ticket
        }
    }
}

// Both tickets of a refused call, in their order.
fn both_back(
    rt: &impl Abort,
    answer: Result<Built, BothBack>,
    no: Refusal,
    shelves: (u8, u8),
) -> (Ticket, Ticket) {
    match answer {
        Ok(_) => panic!(rt; "accepted"),
        Err(BothBack { first, second, why }) => {
            assert_eq!(rt; why, no);
            assert_eq!(rt; (first.shelf(), second.shelf()), shelves);
            (first, second)
        }
    }
}

fn leaf_refused(rt: &impl Abort, answer: Result<Built, Refusal>, no: Refusal) {
    match answer {
        Ok(_) => panic!(rt; "accepted"),
        Err(why) => assert_eq!(rt; why, no),
    }
}

#[test]
fn leaves(rt: HostRuntime) {
    let mut cells: [Option<Worst>; 4096] = [None; 4096];
    let mut rack = TicketRack::open(&mut cells);
    let node = ticket(&rt, rack.node(3, cost(7)), (0, 3));
    let before = rack.report(&node);
    leaf_refused(&rt, rack.node(3, cost(8)), ShelfTaken);
    leaf_refused(&rt, rack.pause(3, cost(8)), ShelfTaken);
    leaf_refused(&rt, rack.table(3, &[]), ShelfTaken);
    leaf_refused(&rt, rack.table(4, &[]), BadArcs);
    leaf_refused(&rt, rack.node(16, cost(8)), NoShelf);
    assert_eq!(rt; rack.report(&node), before);
    cleared(&rt, &mut rack, node);
}

// A node leaves at once, so it has no loop.
#[test]
fn loop_of_a_node(rt: HostRuntime) {
    let mut cells: [Option<Worst>; 4096] = [None; 4096];
    let mut rack = TicketRack::open(&mut cells);
    let node = ticket(&rt, rack.node(9, cost(7)), (0, 9));
    let before = rack.report(&node);
    let node = back(&rt, rack.repeat(node), LeavesAtOnce);
    assert_eq!(rt; node.shelf(), 9);
    assert_eq!(rt; rack.report(&node), before);
    cleared(&rt, &mut rack, node);
}

// Rings of 5 and of 13 side by side repeat after 65 ticks, and a shelf has room for 64.
#[test]
fn long_fork(rt: HostRuntime) {
    let mut cells: [Option<Worst>; 4096] = [None; 4096];
    let mut rack = TicketRack::open(&mut cells);
    let five = ticket(&rt, rack.table(1, &ring(5)), (5, 1));
    let thirteen = ticket(&rt, rack.table(0, &ring(13)), (13, 0));
    let before = (rack.report(&five), rack.report(&thirteen));
    let (five, thirteen) = both_back(&rt, rack.fork(five, thirteen), TooLong, (1, 0));
    assert_eq!(rt; (rack.report(&five), rack.report(&thirteen)), before);
    cleared(&rt, &mut rack, five);
    cleared(&rt, &mut rack, thirteen);
}

// At another rack, where their shelves are empty, tickets are only numbers. At their own they still hold.
#[test]
fn another_rack(rt: HostRuntime) {
    let mut cells: [Option<Worst>; 4096] = [None; 4096];
    let mut own = TicketRack::open(&mut cells);
    let mut cells: [Option<Worst>; 4096] = [None; 4096];
    let mut other = TicketRack::open(&mut cells);
    let node = ticket(&rt, own.node(4, cost(7)), (0, 4));
    let pause = ticket(&rt, own.pause(2, cost(10)), (0, 2));
    let (node, pause) = both_back(&rt, other.choice(node, pause), ShelfEmpty, (4, 2));
    let (node, pause) = both_back(&rt, other.sequence(node, pause), ShelfEmpty, (4, 2));
    let (node, pause) = both_back(&rt, other.fork(node, pause), ShelfEmpty, (4, 2));
    let (node, pause) = both_back(&rt, other.abort(node, pause), ShelfEmpty, (4, 2));
    let pause = back(&rt, other.repeat(pause), ShelfEmpty);
    let pause = back(&rt, other.clear(pause), ShelfEmpty);
    assert_eq!(rt; other.report(&pause), Err(ShelfEmpty));
    let both = ticket(&rt, own.sequence(node, pause), (3, 4));
    cleared(&rt, &mut own, both);
}

// Tickets of two racks that name one shelf.
#[test]
fn same_shelf(rt: HostRuntime) {
    let mut cells: [Option<Worst>; 4096] = [None; 4096];
    let mut own = TicketRack::open(&mut cells);
    let mut cells: [Option<Worst>; 4096] = [None; 4096];
    let mut other = TicketRack::open(&mut cells);
    let first = ticket(&rt, own.pause(6, cost(7)), (0, 6));
    let second = ticket(&rt, other.pause(6, cost(10)), (0, 6));
    let (first, second) = both_back(&rt, own.fork(first, second), SameShelf, (6, 6));
    cleared(&rt, &mut own, first);
    cleared(&rt, &mut other, second);
}

// A list clears the shelf behind a ticket, which holds again once the list's next node fills it.
#[test]
fn behind_a_ticket(rt: HostRuntime) {
    let mut cells: [Option<Worst>; 4096] = [None; 4096];
    let mut rack = TicketRack::open(&mut cells);
    let pause = ticket(&rt, rack.pause(0, cost(7)), (0, 0));
    let mut replies = [Ok(Accepted(9))];
    assert_eq!(rt; rack.run(&[Call::Clear { shelf: 0 }], &mut replies), 1);
    assert_eq!(rt; replies, [Ok(Accepted(0))]);
    assert_eq!(rt; rack.report(&pause), Err(ShelfEmpty));
    let pause = back(&rt, rack.repeat(pause), ShelfEmpty);
    let pause = back(&rt, rack.clear(pause), ShelfEmpty);
    let node = Call::Node {
        shelf: 0,
        label: cost(1),
    };
    assert_eq!(rt; rack.run(&[node], &mut replies), 1);
    cleared(&rt, &mut rack, pause);
}
