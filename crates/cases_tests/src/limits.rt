// Sums at the top, rows as long as a shelf, rows too long for it, and situations that repeat too late.
use crate::deed::Deed::*;
use crate::deed::States::*;
use crate::script::Line::*;
use crate::script::{Line, under_each};
use shelves::refusal::Refusal::*;
use std::array;
use std::test::*;

// Four nodes of the most cycles, then one of 2: the sum is one below the top. With one of 3 it is at the top.
#[test]
fn five_nodes(rt: HostRuntime) -> Result<(), Fail> {
    under_each(
        &rt,
        &[
            Done(Node(0, 1_073_741_823), 0),
            Done(Node(2, 1_073_741_823), 0),
            Done(Sequence(0, 2), 2),
            Done(Node(2, 1_073_741_823), 0),
            Done(Sequence(0, 2), 2),
            Done(Node(2, 1_073_741_823), 0),
            Done(Sequence(0, 2), 2),
            Done(Node(2, 2), 0),
            Done(Sequence(0, 2), 2),
            Report(
                0,
                (4_294_967_294, 0),
                (4_294_967_294, 0),
                0x8000_0004,
                (1, 1),
            ),
            Done(Node(1, 1_073_741_823), 0),
            Done(Node(2, 1_073_741_823), 0),
            Done(Sequence(1, 2), 2),
            Done(Node(2, 1_073_741_823), 0),
            Done(Sequence(1, 2), 2),
            Done(Node(2, 1_073_741_823), 0),
            Done(Sequence(1, 2), 2),
            Done(Node(2, 3), 0),
            Done(Sequence(1, 2), 2),
            Report(
                1,
                (4_294_967_295, 0),
                (4_294_967_295, 0),
                0x8000_0008,
                (1, 1),
            ),
        ],
    )
}

#[test]
fn rings(rt: HostRuntime) -> Result<(), Fail> {
    under_each(
        &rt,
        &[
            Done(Table(0, Ring(7)), 7),
            Report(0, (1, 0), (0, 1), 0x3, (0, 7)),
            Done(Table(1, Ring(9)), 9),
            Report(1, (1, 0), (0, 1), 0x3, (0, 9)),
            Done(Fork(0, 1), 63),
            Report(0, (2, 0), (0, 1), 0x3, (0, 63)),
            Done(Table(1, Ring(5)), 5),
            Done(Table(2, Ring(13)), 13),
            Refused(Fork(1, 2), TooLong),
            Report(1, (1, 0), (0, 1), 0x3, (0, 5)),
            Report(2, (1, 0), (0, 1), 0x3, (0, 13)),
            Done(Table(3, Ring(33)), 33),
            Done(Table(4, Ring(32)), 32),
            Refused(Fork(3, 4), NeverRepeats),
            Report(3, (1, 0), (0, 1), 0x3, (0, 33)),
            Report(4, (1, 0), (0, 1), 0x3, (0, 32)),
        ],
    )
}

// Pauses of 1 to 62 cycles in sequence are kept, one more is refused.
fn pauses() -> [Line; 127] {
    array::from_fn(|place| match place {
        0 => Done(Pause(0, 1), 0),
        124 => Done(Pause(1, 63), 0),
        125 => Refused(Sequence(0, 1), TooLong),
        123 | 126 => Report(0, (62, 61), (0, 62), 0xffff_ffff, (63, 1)),
        _ if place % 2 == 1 => Done(Pause(1, place as u32 / 2 + 2), 0),
        _ => Done(Sequence(0, 1), place / 2 + 3),
    })
}

#[test]
fn chain(rt: HostRuntime) -> Result<(), Fail> {
    under_each(&rt, &pauses())
}
