// One state table, and a fork over it, under each algebra: a test for each, so that one that fails names its algebra.
use crate::bench::*;
use algebra::algebra::Algebra;
use algebra::arc::Arc;
use algebra::best::Best;
use algebra::label::Label;
use algebra::pair::Pair;
use algebra::ports::Ports;
use algebra::worst::Worst;
use rows::cells::Cells;
use rows::fork::Fork;
use rows::piece::{Piece, Row};
use rows::table::Table;
use std::process::Abort;
use std::test::Fail;

fn arc(from: u8, to: u8, cycles: u32, ports: u32) -> Arc {
    Arc {
        from,
        to,
        label: Label { cycles, ports },
    }
}

// From state 0 by one of two states back to it.
fn states<V: Algebra>(rt: &impl Abort, cells: &mut Cells<V>, shelf: usize) -> Result<Piece, Fail> {
    let arcs = [
        arc(0, 1, 5, 0b0001),
        arc(0, 2, 8, 0b0010),
        arc(1, 0, 3, 0b0100),
        arc(2, 0, 1, 0b1000),
    ];
    unrolled(rt, &Table::new(&arcs), cells, shelf, (2, 0, 2))
}

// The states beside a pause of 2 cycles on port 4.
fn beside<V: Algebra>(rt: &impl Abort, cells: &mut Cells<V>, shelf: usize) -> Result<Piece, Fail> {
    assert!(rt; shelf <= 13);
    let a = states(rt, cells, shelf + 1)?;
    let label = Label {
        cycles: 2,
        ports: 0b10000,
    };
    let b = pause(rt, cells, shelf + 2, V::weigh(label));
    unrolled(rt, &Fork { a, b }, cells, shelf, (4, 1, 2))
}

// The pause rows of both, as they are awaited.
fn under<V: Figure>(
    rt: &impl Abort,
    cells: &mut Cells<V>,
    of_table: [Option<u32>; 4],
    of_fork: [Option<u32>; 4],
) -> Result<(), Fail> {
    let table = states(rt, cells, 0)?;
    assert_eq!(rt; four(cells, table, Row::Pause), of_table);
    let fork = beside(rt, cells, 1)?;
    assert_eq!(rt; four(cells, fork, Row::Pause), of_fork);
    Ok(())
}

#[test]
fn under_worst(rt: HostRuntime) -> Result<(), Fail> {
    under::<Worst>(
        &rt,
        &mut Cells {
            lent: &mut [None; 4096],
        },
        [Some(8), Some(3), None, None],
        [Some(10), Some(3), Some(8), None],
    )
}

#[test]
fn under_best(rt: HostRuntime) -> Result<(), Fail> {
    under::<Best>(
        &rt,
        &mut Cells {
            lent: &mut [None; 4096],
        },
        [Some(5), Some(1), None, None],
        [Some(7), Some(1), Some(5), None],
    )
}

#[test]
fn under_ports(rt: HostRuntime) -> Result<(), Fail> {
    under::<Ports>(
        &rt,
        &mut Cells {
            lent: &mut [None; 4096],
        },
        [Some(0b0011), Some(0b1100), None, None],
        [Some(0b10011), Some(0b1100), Some(0b0011), None],
    )
}

// Both halves of a cell.
fn halves(cell: Option<Pair<Worst, Ports>>) -> Option<(u32, u32)> {
    cell.map(|both| (both.first.cycles, both.second.bits))
}

#[test]
fn under_the_pair(rt: HostRuntime) -> Result<(), Fail> {
    let cells = &mut Cells {
        lent: &mut [None; 4096],
    };
    let fork = beside::<Pair<Worst, Ports>>(&rt, cells, 0)?;
    assert_eq!(rt; fork.place.shelf, 0);
    assert_eq!(rt; halves(cells.lent[0]), Some((10, 0b10011)));
    assert_eq!(rt; halves(cells.lent[1]), Some((3, 0b1100)));
    assert_eq!(rt; halves(cells.lent[2]), Some((8, 0b0011)));
    assert_eq!(rt; halves(cells.lent[3]), None);
    Ok(())
}
