// The promise over whole histories, in every algebra.
ghost use Rattle.shelves.specs.Lists.{Promise, Opening};

use algebra::algebra::Algebra;

// A rack just opened keeps the promise, and so does each call after any history.
pub fn promise_stands<V: Algebra>() -> ()
    ensures opening { Opening V.model }
    ensures calls { Promise V.model }
{}
