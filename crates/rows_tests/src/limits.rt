// Rows as long as a shelf, too long for it, and situations that repeat too late.
use crate::bench::*;
use algebra::worst::Worst;
use rows::cells::Cells;
use rows::fork::Fork;
use rows::outcome::Unkept;
use rows::place::Place;
use rows::unroll::unroll;
use std::process::Abort;
use std::test::Fail;

// Two rings beside each other, unrolled: where they are kept, the reply is the period.
fn beside(rt: &impl Abort, one: usize, two: usize) -> Result<(), Unkept> {
    let cells = &mut Cells {
        lent: &mut [None; 4096],
    };
    let a = ring(rt, cells, 0, Worst { cycles: 1 }, one);
    let b = ring(rt, cells, 1, Worst { cycles: 2 }, two);
    let u = unroll(&Fork { a, b }, cells, Place { shelf: 2 })?;
    assert_eq!(rt; (u.reply, u.shape.transient), (u.shape.period, 0));
    Ok(())
}

#[test]
fn lengths(rt: HostRuntime) -> Result<(), Fail> {
    assert_eq!(rt; beside(&rt, 64, 1), Ok(()));
    assert_eq!(rt; beside(&rt, 9, 7), Ok(()));
    assert_eq!(rt; beside(&rt, 13, 5), Err(Unkept::TooLong));
    assert_eq!(rt; beside(&rt, 33, 31), Err(Unkept::TooLong));
    assert_eq!(rt; beside(&rt, 41, 25), Err(Unkept::NeverSoon));
    Ok(())
}
