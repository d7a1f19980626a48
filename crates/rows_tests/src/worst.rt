// Each rule under worst.
use crate::bench::*;
use algebra::arc::{Arc, OUT};
use algebra::label::Label;
use algebra::worst::Worst;
use rows::abort::Abort;
use rows::cells::Cells;
use rows::choice::Choice;
use rows::fork::Fork;
use rows::piece::{Piece, Row};
use rows::repeat::Repeat;
use rows::sequence::Sequence;
use rows::table::Table;
use std::test::Fail;

// Two pauses in sequence, on a shelf and the two after it.
fn twice(
    rt: &impl std::process::Abort,
    cells: &mut Cells<Worst>,
    shelf: usize,
    a: u32,
    b: u32,
) -> Result<Piece, Fail> {
    assert!(rt; shelf <= 13);
    let a = pause(rt, cells, shelf + 1, Worst { cycles: a });
    let b = pause(rt, cells, shelf + 2, Worst { cycles: b });
    unrolled(rt, &Sequence { a, b }, cells, shelf, (4, 3, 1))
}

// Their loop.
fn round(
    rt: &impl std::process::Abort,
    cells: &mut Cells<Worst>,
    shelf: usize,
    a: u32,
    b: u32,
) -> Result<Piece, Fail> {
    assert!(rt; shelf <= 12);
    let a = twice(rt, cells, shelf + 1, a, b)?;
    unrolled(rt, &Repeat { a }, cells, shelf, (3, 0, 2))
}

#[test]
fn loops(rt: HostRuntime) -> Result<(), Fail> {
    let cells = &mut Cells {
        lent: &mut [None; 4096],
    };
    let a = pause(&rt, cells, 0, Worst { cycles: 10 });
    let ever = unrolled(&rt, &Repeat { a }, cells, 1, (2, 0, 1))?;
    assert_eq!(rt; four(cells, ever, Row::Pause), [Some(10), None, None, None]);
    assert_eq!(rt; four(cells, ever, Row::Exit), [None; 4]);
    let both = round(&rt, cells, 2, 4, 9)?;
    assert_eq!(rt;
        four(cells, both, Row::Pause),
        [Some(4), Some(9), None, None]
    );
    Ok(())
}

// An equal coefficient is not yet a repeat.
#[test]
fn loop_of_three(rt: HostRuntime) -> Result<(), Fail> {
    let cells = &mut Cells {
        lent: &mut [None; 4096],
    };
    let a = twice(&rt, cells, 0, 5, 5)?;
    let b = pause(&rt, cells, 3, Worst { cycles: 9 });
    let a = unrolled(&rt, &Sequence { a, b }, cells, 4, (5, 4, 1))?;
    let three = unrolled(&rt, &Repeat { a }, cells, 5, (4, 0, 3))?;
    assert_eq!(rt;
        four(cells, three, Row::Pause),
        [Some(5), Some(5), Some(9), None]
    );
    Ok(())
}

#[test]
fn forks(rt: HostRuntime) -> Result<(), Fail> {
    let cells = &mut Cells {
        lent: &mut [None; 4096],
    };
    let a = round(&rt, cells, 0, 4, 9)?;
    let b = round(&rt, cells, 4, 9, 2)?;
    let beside = unrolled(&rt, &Fork { a, b }, cells, 8, (2, 0, 2))?;
    assert_eq!(rt;
        four(cells, beside, Row::Pause),
        [Some(13), Some(11), None, None]
    );
    let a = pause(&rt, cells, 9, Worst { cycles: 5 });
    let b = twice(&rt, cells, 10, 3, 8)?;
    let waits = unrolled(&rt, &Fork { a, b }, cells, 13, (4, 3, 1))?;
    assert_eq!(rt;
        four(cells, waits, Row::Pause),
        [Some(8), Some(8), None, None]
    );
    assert_eq!(rt; four(cells, waits, Row::Exit), [None, None, Some(0), None]);
    Ok(())
}

#[test]
fn aborts(rt: HostRuntime) -> Result<(), Fail> {
    let cells = &mut Cells {
        lent: &mut [None; 4096],
    };
    let arcs = [
        Arc {
            from: 0,
            to: 0,
            label: Label {
                cycles: 6,
                ports: 0,
            },
        },
        Arc {
            from: 0,
            to: OUT,
            label: Label {
                cycles: 20,
                ports: 0,
            },
        },
    ];
    let h = unrolled(&rt, &Table::new(&arcs), cells, 0, (1, 0, 1))?;
    let a = pause(&rt, cells, 1, Worst { cycles: 30 });
    let b = node(&rt, cells, 2, Worst { cycles: 1 });
    let a = unrolled(&rt, &Sequence { a, b }, cells, 3, (3, 2, 1))?;
    let cut = unrolled(&rt, &Abort { h, a }, cells, 4, (3, 2, 1))?;
    assert_eq!(rt; four(cells, cut, Row::Pause), [Some(36), None, None, None]);
    assert_eq!(rt;
        four(cells, cut, Row::Exit),
        [Some(20), Some(20), None, None]
    );
    Ok(())
}

#[test]
fn choices(rt: HostRuntime) -> Result<(), Fail> {
    let cells = &mut Cells {
        lent: &mut [None; 4096],
    };
    let a = pause(&rt, cells, 0, Worst { cycles: 10 });
    let b = node(&rt, cells, 1, Worst { cycles: 40 });
    let either = unrolled(&rt, &Choice { a, b }, cells, 2, (3, 2, 1))?;
    assert_eq!(rt;
        four(cells, either, Row::Pause),
        [Some(10), None, None, None]
    );
    assert_eq!(rt;
        four(cells, either, Row::Exit),
        [Some(40), Some(0), None, None]
    );
    Ok(())
}
