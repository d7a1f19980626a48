// The calls of a script, with labels by their cost and tables by their name.
use algebra::algebra::Algebra;
use algebra::arc::{Arc, OUT};
use algebra::label::Label;
use arrayvec::ArrayVec;
use rack::rack::Rack;
use shelves::refusal::Refusal;
use std::array;

// A call by its shelves and its cost or its states.
#[derive(Clone, Copy)]
pub enum Deed {
    Node(u8, u32),
    Pause(u8, u32),
    Table(u8, States),
    Choice(u8, u8),
    Sequence(u8, u8),
    Loop(u8),
    Fork(u8, u8),
    Abort(u8, u8),
    Clear(u8),
}

#[derive(Clone, Copy)]
pub enum States {
    // back to state 0 at a cost of 6, or out at 20
    Watch,
    // from state 0 by one of two states back to it
    Detour,
    // so many states, at most 65, one after the other and back: a cost of 1 out of state 0, else of 0
    Ring(u8),
    // to a state that begins no arc
    Stuck,
    // as many arcs as a rack records, all from state 0 to itself
    Loops,
}

// A label of so many cycles, on the port of that number modulo 32.
pub fn cost(cycles: u32) -> Label {
    Label {
        cycles,
        ports: 1 << (cycles % 32),
    }
}

pub fn arc(from: u8, to: u8, cycles: u32) -> Arc {
    Arc {
        from,
        to,
        label: cost(cycles),
    }
}

// The arcs of a ring of so many states, at most 65.
pub fn ring(states: u8) -> ArrayVec<Arc, 65> {
    let mut arcs = ArrayVec::from(array::from_fn(|place| {
        let k = place as u8;
        let next = if k + 1 == states { 0 } else { k + 1 };
        arc(k, next, if k == 0 { 1 } else { 0 })
    }));
    arcs.truncate(states as usize);
    arcs
}

fn table<V: Algebra>(rack: &mut Rack<V>, shelf: u8, states: States) -> Result<usize, Refusal> {
    // a match, since each case has arguments of its own
    match states {
        States::Watch => rack.table(shelf, &[arc(0, 0, 6), arc(0, OUT, 20)]),
        States::Detour => {
            let arcs = [arc(0, 1, 5), arc(0, 2, 8), arc(1, 0, 3), arc(2, 0, 1)];
            rack.table(shelf, &arcs)
        }
        States::Ring(count) => rack.table(shelf, &ring(count)),
        States::Stuck => rack.table(shelf, &[arc(0, 1, 1)]),
        States::Loops => rack.table(shelf, &[arc(0, 0, 1); 512]),
    }
}

pub fn perform<V: Algebra>(rack: &mut Rack<V>, deed: Deed) -> Result<usize, Refusal> {
    // a match, since each case has arguments of its own
    match deed {
        Deed::Node(shelf, cycles) => rack.node(shelf, cost(cycles)),
        Deed::Pause(shelf, cycles) => rack.pause(shelf, cost(cycles)),
        Deed::Table(shelf, states) => table(rack, shelf, states),
        Deed::Choice(first, second) => rack.choice(first, second),
        Deed::Sequence(first, second) => rack.sequence(first, second),
        Deed::Loop(shelf) => rack.repeat(shelf),
        Deed::Fork(first, second) => rack.fork(first, second),
        Deed::Abort(first, second) => rack.abort(first, second),
        Deed::Clear(shelf) => rack.clear(shelf),
    }
}
