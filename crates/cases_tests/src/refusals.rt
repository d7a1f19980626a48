// The numbers of the refusals, and those of the calls.
use crate::deed::Deed::*;
use crate::deed::States::*;
use crate::script::Line::*;
use crate::script::{Line, under_each};
use shelves::refusal::Refusal::*;
use std::array;
use std::test::*;

// The numbers that are printed, in the order of the questions.
#[test]
fn numbers(rt: HostRuntime) -> Result<(), Fail> {
    let refusals = [
        FewCells,
        NoShelf,
        SameShelf,
        ShelfTaken,
        ShelfEmpty,
        ManyCycles,
        BadArcs,
        StateWithoutArc,
        StepsFull,
        ArcsFull,
        LeavesAtOnce,
        NeverRepeats,
        TooLong,
    ];
    for (k, no) in refusals.iter().enumerate() {
        assert_eq!(rt; no.number() as usize, k + 1);
    }
    Ok(())
}

#[test]
fn shelves_and_labels(rt: HostRuntime) -> Result<(), Fail> {
    under_each(
        &rt,
        &[
            Refused(Node(16, 1), NoShelf),
            NoReport(16, NoShelf),
            Refused(Choice(15, 15), SameShelf),
            Refused(Pause(15, 1), ShelfTaken),
            Refused(Sequence(15, 0), ShelfEmpty),
            Refused(Node(0, 1_073_741_824), ManyCycles),
            NoReport(0, ShelfEmpty),
        ],
    )
}

#[test]
fn arcs(rt: HostRuntime) -> Result<(), Fail> {
    under_each(
        &rt,
        &[
            Refused(Table(0, Ring(0)), BadArcs),
            Refused(Table(0, Ring(65)), BadArcs),
            Refused(Table(0, Stuck), StateWithoutArc),
            Done(Table(0, Loops), 1),
            Refused(Table(1, Ring(1)), ArcsFull),
            Report(0, (1, 0), (1, 0), 0x2, (0, 1)),
        ],
    )
}

// A node and its clear in turn. The pause on shelf 15 is the first of 512 steps, and one more is refused.
fn nodes() -> [Line; 1023] {
    array::from_fn(|place| match place {
        1022 => Refused(Node(0, 1), StepsFull),
        _ if place % 2 == 0 => Done(Node(0, 1), 0),
        _ => Done(Clear(0), 0),
    })
}

// `chain` is another script: each is a test of its own, so that what fails has a name.
#[test]
fn steps(rt: HostRuntime) -> Result<(), Fail> {
    under_each(&rt, &nodes())
}
