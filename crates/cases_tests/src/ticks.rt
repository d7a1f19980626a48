// Small programs of every kind.
use crate::deed::Deed::*;
use crate::deed::States::*;
use crate::script::Line::*;
use crate::script::under_each;
use shelves::refusal::Refusal::*;
use std::test::*;

#[test]
fn leaves(rt: HostRuntime) -> Result<(), Fail> {
    under_each(
        &rt,
        &[
            Done(Node(0, 7), 0),
            Report(0, (7, 0), (7, 0), 0x80, (1, 1)),
            Done(Pause(1, 10), 0),
            Report(1, (10, 0), (0, 1), 0x400, (2, 1)),
            Done(Loop(1), 2),
            Report(1, (10, 0), (10, 0), 0x400, (0, 1)),
        ],
    )
}

// Two loops whose long ticks never meet.
#[test]
fn side_by_side(rt: HostRuntime) -> Result<(), Fail> {
    under_each(
        &rt,
        &[
            Done(Pause(0, 4), 0),
            Done(Pause(1, 9), 0),
            Done(Sequence(0, 1), 4),
            Report(0, (9, 1), (0, 2), 0x210, (3, 1)),
            NoReport(1, ShelfEmpty),
            Done(Loop(0), 3),
            Report(0, (9, 1), (4, 0), 0x210, (0, 2)),
            Done(Pause(1, 9), 0),
            Done(Pause(2, 2), 0),
            Done(Sequence(1, 2), 4),
            Done(Loop(1), 3),
            Report(1, (9, 0), (2, 1), 0x204, (0, 2)),
            Done(Fork(0, 1), 2),
            Report(0, (13, 0), (11, 1), 0x214, (0, 2)),
        ],
    )
}

// The fork leaves with the second of the two pauses.
#[test]
fn one_beside_two(rt: HostRuntime) -> Result<(), Fail> {
    under_each(
        &rt,
        &[
            Done(Pause(0, 5), 0),
            Done(Pause(1, 3), 0),
            Done(Pause(2, 8), 0),
            Done(Sequence(1, 2), 4),
            Done(Fork(0, 1), 4),
            Report(0, (8, 0), (0, 2), 0x128, (3, 1)),
        ],
    )
}

// A table that may lead out at any tick, over a pause and a node.
#[test]
fn watched_job(rt: HostRuntime) -> Result<(), Fail> {
    under_each(
        &rt,
        &[
            Done(Table(0, Watch), 1),
            Report(0, (20, 0), (6, 0), 0x10_0040, (0, 1)),
            Done(Pause(1, 30), 0),
            Done(Node(2, 1), 0),
            Done(Sequence(1, 2), 3),
            Report(1, (30, 0), (1, 1), 0x4000_0002, (2, 1)),
            Done(Abort(0, 1), 3),
            Report(0, (36, 0), (7, 1), 0x4010_0042, (2, 1)),
        ],
    )
}

// A choice that may leave at once has no loop.
#[test]
fn either(rt: HostRuntime) -> Result<(), Fail> {
    under_each(
        &rt,
        &[
            Done(Pause(0, 10), 0),
            Done(Node(1, 40), 0),
            Done(Choice(0, 1), 3),
            Report(0, (40, 0), (0, 1), 0x500, (2, 1)),
            Refused(Loop(0), LeavesAtOnce),
            Report(0, (40, 0), (0, 1), 0x500, (2, 1)),
            Done(Clear(0), 0),
            NoReport(0, ShelfEmpty),
        ],
    )
}

#[test]
fn detour(rt: HostRuntime) -> Result<(), Fail> {
    under_each(
        &rt,
        &[
            Done(Table(0, Detour), 2),
            Report(0, (8, 0), (1, 1), 0x12a, (0, 2)),
        ],
    )
}

// An equal tick is not yet a repeat.
#[test]
fn three_pauses(rt: HostRuntime) -> Result<(), Fail> {
    under_each(
        &rt,
        &[
            Done(Pause(0, 5), 0),
            Done(Pause(1, 5), 0),
            Done(Sequence(0, 1), 4),
            Done(Pause(1, 9), 0),
            Done(Sequence(0, 1), 5),
            Done(Loop(0), 4),
            Report(0, (9, 2), (5, 0), 0x220, (0, 3)),
        ],
    )
}
