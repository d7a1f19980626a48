// What the tests work with: pieces written onto their shelves by hand, rules unrolled, rows read. The cells go to each, as
// in the code that is tested, and a shelf by its number, of which the place is made here.
use algebra::algebra::Algebra;
use algebra::best::Best;
use algebra::ports::Ports;
use algebra::worst::Worst;
use rows::cells::Cells;
use rows::piece::{Piece, Row};
use rows::place::Place;
use rows::rule::RowRule;
use rows::shape::Shape;
use rows::unroll::unroll;
use std::array;
use std::process::Abort;
use std::test::Fail;

// The number that a check compares.
pub trait Figure: Algebra {
    fn figure(self) -> u32;
}

// An impl for each, as worst and best are two types for a reason that stands beside best.
impl Figure for Worst {
    fn figure(self) -> u32 {
        self.cycles
    }
}

impl Figure for Best {
    fn figure(self) -> u32 {
        self.cycles
    }
}

impl Figure for Ports {
    fn figure(self) -> u32 {
        self.bits
    }
}

fn shown<V: Figure>(cell: Option<V>) -> Option<u32> {
    cell.map(|value| value.figure())
}

// The place with this number.
fn place(rt: &impl Abort, shelf: usize) -> Place {
    assert!(rt; shelf <= 15);
    Place { shelf }
}

// A node: it leaves at tick 0.
pub fn node<V: Algebra>(rt: &impl Abort, cells: &mut Cells<V>, shelf: usize, value: V) -> Piece {
    let place = place(rt, shelf);
    cells.lent[128 * place.shelf + 64] = Some(value);
    Piece {
        place,
        shape: Shape {
            transient: 1,
            period: 1,
        },
    }
}

// A pause: it stays at tick 0 and leaves, with the unit, at tick 1.
pub fn pause<V: Algebra>(rt: &impl Abort, cells: &mut Cells<V>, shelf: usize, value: V) -> Piece {
    let place = place(rt, shelf);
    cells.lent[128 * place.shelf] = Some(value);
    cells.lent[128 * place.shelf + 65] = Some(V::unit());
    Piece {
        place,
        shape: Shape {
            transient: 2,
            period: 1,
        },
    }
}

// A ring: it stays for ever, with this value at the first tick of each round and with the unit at the others.
pub fn ring<V: Algebra>(
    rt: &impl Abort,
    cells: &mut Cells<V>,
    shelf: usize,
    value: V,
    period: usize,
) -> Piece {
    let place = place(rt, shelf);
    assert!(rt; period >= 1 && period <= 64);
    let from = 128 * place.shelf;
    cells.lent[from..from + period].fill_with(|| Some(V::unit()));
    cells.lent[from] = Some(value);
    Piece {
        place,
        shape: Shape {
            transient: 0,
            period,
        },
    }
}

// Unrolls a rule onto a shelf, and compares the reply, the transient and the period with those awaited.
pub fn unrolled<R: RowRule, V: Algebra>(
    rt: &impl Abort,
    rule: &R,
    cells: &mut Cells<V>,
    shelf: usize,
    awaited: (usize, usize, usize),
) -> Result<Piece, Fail> {
    let place = place(rt, shelf);
    let u = unroll(rule, cells, place).map_err(|_| Fail::new("not kept"))?;
    assert_eq!(rt; (u.reply, u.shape.transient, u.shape.period), awaited);
    Ok(Piece {
        place,
        shape: u.shape,
    })
}

// A row at the phases 0 to 3, absent past the last.
pub fn four<V: Figure>(cells: &Cells<V>, piece: Piece, row: Row) -> [Option<u32>; 4] {
    let from = match row {
        Row::Pause => 128 * piece.place.shelf,
        Row::Exit => 128 * piece.place.shelf + 64,
    };
    array::from_fn(|k| shown(cells.lent[from + k]))
}
