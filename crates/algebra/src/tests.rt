// Labels weighed, joined and added by each algebra, up to the top of a sum.
use crate::algebra::Algebra;
use crate::best::Best;
use crate::coefficient::{add, equal, join, mark};
use crate::label::Label;
use crate::pair::Pair;
use crate::ports::Ports;
use crate::worst::Worst;
use std::process::Abort;

const TOP: u32 = 4_294_967_295;

// Two weights, the larger and the smaller of them, and their sum.
fn cycles(rt: &impl Abort, a: u32, b: u32, larger: u32, smaller: u32, sum: u32) {
    let one = Label {
        cycles: a,
        ports: 0,
    };
    let two = Label {
        cycles: b,
        ports: 0,
    };
    let worst = Worst::weigh(one);
    let best = Best::weigh(one);
    assert_eq!(rt; worst.join(Worst::weigh(two)).cycles, larger);
    assert_eq!(rt; worst.add(Worst::weigh(two)).cycles, sum);
    assert_eq!(rt; best.join(Best::weigh(two)).cycles, smaller);
    assert_eq!(rt; best.add(Best::weigh(two)).cycles, sum);
}

#[test]
fn sums(rt: HostRuntime) {
    cycles(&rt, 7, 9, 9, 7, 16);
    cycles(&rt, 0, 5, 5, 0, 5);
    cycles(&rt, TOP - 2, 1, TOP - 2, 1, TOP - 1);
    cycles(&rt, TOP - 1, 1, TOP - 1, 1, TOP);
    cycles(&rt, TOP, 1, TOP, 1, TOP);
    cycles(&rt, TOP, TOP, TOP, TOP, TOP);
}

#[test]
fn pairs(rt: HostRuntime) {
    let read: Pair<Worst, Ports> = Pair::weigh(Label {
        cycles: 7,
        ports: 0b011,
    });
    let write = Pair::weigh(Label {
        cycles: 4,
        ports: 0b110,
    });
    let either = read.join(write);
    assert_eq!(rt; either.first.cycles, 7);
    assert_eq!(rt; either.second.bits, 0b111);
    let both = read.add(write);
    assert_eq!(rt; both.first.cycles, 11);
    assert_eq!(rt; both.second.bits, 0b111);
    assert!(rt; either != both);
}

#[test]
fn coefficients(rt: HostRuntime) {
    let seven = Some(Worst { cycles: 7 });
    assert!(rt; equal(join(None, seven), seven));
    assert!(rt; equal(add(seven, mark(true)), seven));
    assert!(rt; equal(add(seven, mark(false)), None));
    assert!(rt; !equal(seven, None));
}

#[test]
fn limits(rt: HostRuntime) {
    let most = Label {
        cycles: 1_073_741_823,
        ports: TOP,
    };
    let more = Label {
        cycles: 1_073_741_824,
        ports: 0,
    };
    assert!(rt; most.allowed());
    assert!(rt; !more.allowed());
}
