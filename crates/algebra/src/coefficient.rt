// Coefficients: a value of an algebra, or absent.
ghost use Rattle.std.specs.Prelude.{◌≡◌, Decides};
ghost use Rattle.std.specs.Option.{option_map};
ghost use Rattle.algebra.specs.Coefficients.{join as joined, add as added, mark as marked, CoefLaws};
ghost use Rattle.algebra.specs.Model.{Laws};

use crate::algebra::Algebra;

// Absent joined with anything is that thing.
pub fn join<V: Algebra>(a: Option<V>, b: Option<V>) -> Option<V>
    ensures { option_map V.means result ≡ joined V.model (option_map V.means a) (option_map V.means b) }
{
    match (a, b) {
        (None, _) => b,
        (Some(_), None) => a,
        (Some(x), Some(y)) => Some(x.join(y)),
    }
}

// Absent added to anything is absent.
pub fn add<V: Algebra>(a: Option<V>, b: Option<V>) -> Option<V>
    ensures { option_map V.means result ≡ added V.model (option_map V.means a) (option_map V.means b) }
{
    Some(a?.add(b?))
}

// The unit where the mark is set, else absent.
pub fn mark<V: Algebra>(set: bool) -> Option<V>
    ensures { option_map V.means result ≡ marked V.model set }
{
    set.then_some(V::unit())
}

// Do the two mean the same? `==` compares values, and this says of what they mean that it may.
pub fn equal<V: Algebra>(a: Option<V>, b: Option<V>) -> bool
    ensures { Decides result (option_map V.means a ≡ option_map V.means b) }
{
    a == b
}

// Coefficients keep the laws of their algebra, and absent is what a join leaves alone.
pub fn laws_stand<V: Algebra>() -> ()
    ensures algebra { Laws V.model }
    ensures coefficients { CoefLaws V.model }
{}
