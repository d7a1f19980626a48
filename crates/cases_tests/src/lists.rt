// Whole lists of calls, refused ones too, run on a rack of each kind.
use crate::deed::{arc, cost};
use algebra::arc::{Arc, OUT};
use algebra::worst::Worst;
use rack::rack::Rack;
use shelves::call::{Call, Pairing};
use shelves::refusal::Refusal::*;
use shelves::reply::Answer::*;
use shelves::reply::Reply;
use shelves::report::Report;
use std::process::Abort;
use std::test::*;
use tickets::ticket_rack::TicketRack;

fn calls(arcs: &[Arc]) -> [Call<'_>; 12] {
    let kind = Pairing::Sequence;
    [
        Call::Report { shelf: 0 },
        Call::Node {
            shelf: 0,
            label: cost(7),
        },
        Call::Pause {
            shelf: 1,
            label: cost(10),
        },
        Call::Pause {
            shelf: 1,
            label: cost(1),
        },
        Call::Pair {
            kind,
            first: 0,
            second: 1,
        },
        Call::Report { shelf: 0 },
        Call::Loop { shelf: 1 },
        Call::Loop { shelf: 0 },
        Call::Table { shelf: 1, arcs },
        Call::Clear { shelf: 1 },
        Call::Clear { shelf: 1 },
        Call::Report { shelf: 16 },
    ]
}

fn told(cycles: u32, transient: usize) -> Reply<Worst> {
    Ok(Reported(Report {
        figure: Some(Worst { cycles }),
        tick: Some(0),
        transient,
        period: 1,
    }))
}

// What a lent reply holds before: no call on an open rack is refused so.
const LENT: Reply<Worst> = Err(FewCells);

// Runs the list on a rack of each kind, over as many replies as are awaited, and then a list of one report. The two kinds
// share no trait, so each is run in full.
fn on_each(rt: &impl Abort, count: usize, awaited: &[Reply<Worst>], after: Reply<Worst>) {
    let arcs = [arc(0, 0, 6), arc(0, OUT, 20)];
    let calls = calls(&arcs);
    let then = [Call::Report { shelf: 0 }];
    let lent = awaited.len().min(14);

    let mut cells = [None; 4096];
    let mut rack = Rack::open(&mut cells);
    let mut replies = [LENT; 14];
    assert_eq!(rt; rack.run(&calls, &mut replies[..lent]), count);
    assert_eq!(rt; &replies[..lent], awaited);
    assert_eq!(rt; rack.run(&then, &mut replies), 1);
    assert_eq!(rt; replies[0], after);

    let mut cells = [None; 4096];
    let mut rack = TicketRack::open(&mut cells);
    let mut replies = [LENT; 14];
    assert_eq!(rt; rack.run(&calls, &mut replies[..lent]), count);
    assert_eq!(rt; &replies[..lent], awaited);
    assert_eq!(rt; rack.run(&then, &mut replies), 1);
    assert_eq!(rt; replies[0], after);
}

// More replies are lent than there are calls: the last two stay as they were.
#[test]
fn every_call(rt: HostRuntime) {
    let awaited = [
        Err(ShelfEmpty),
        Ok(Accepted(0)),
        Ok(Accepted(0)),
        Err(ShelfTaken),
        Ok(Accepted(3)),
        told(17, 2),
        Err(ShelfEmpty),
        Ok(Accepted(2)),
        Ok(Accepted(1)),
        Ok(Accepted(0)),
        Err(ShelfEmpty),
        Err(NoShelf),
        LENT,
        LENT,
    ];
    on_each(&rt, 12, &awaited, told(17, 0));
}

// Replies are lent for the first four calls alone: no sequence is made, and shelf 0 keeps its node.
#[test]
fn few_replies(rt: HostRuntime) {
    let awaited = [
        Err(ShelfEmpty),
        Ok(Accepted(0)),
        Ok(Accepted(0)),
        Err(ShelfTaken),
    ];
    on_each(&rt, 4, &awaited, told(7, 1));
}
