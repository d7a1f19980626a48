// An algebra: values that labels weigh, joined over runs and added within a tick.
ghost use Rattle.std.specs.Prelude.{◌≡◌, true, ◌⊎◌, ◌↔◌, IsTrue};
ghost use Rattle.algebra.specs.Model.{Model};

use crate::label::Label;

pub trait Algebra: Copy + Eq {
    // what the values mean
    ghost model: { Model };

    ghost means: { Self → model.Carrier };

    fn unit() -> Self
        ensures { means result ≡ model.unit };

    fn weigh(label: Label) -> Self
        ensures { means result ≡ model.weigh label };

    fn join(self, other: Self) -> Self
        ensures { means result ≡ model.join (means self) (means other) };

    fn add(self, other: Self) -> Self
        ensures { means result ≡ model.add (means self) (means other) };

    fn chooses() -> bool
        ensures { result ≡ model.chooses };

    // two values are equal exactly when they mean the same
    ghost same: { (a b : Self) → IsTrue (Self.eq a b) ↔ (means a ≡ means b) };

    ghost join_assoc: { (a b c : model.Carrier) → model.join (model.join a b) c ≡ model.join a (model.join b c) };

    ghost join_comm: { (a b : model.Carrier) → model.join a b ≡ model.join b a };

    ghost join_self: { (a : model.Carrier) → model.join a a ≡ a };

    ghost add_assoc: { (a b c : model.Carrier) → model.add (model.add a b) c ≡ model.add a (model.add b c) };

    ghost add_comm: { (a b : model.Carrier) → model.add a b ≡ model.add b a };

    ghost add_unit: { (a : model.Carrier) → model.add a model.unit ≡ a };

    ghost add_join: { (a b c : model.Carrier) → model.add a (model.join b c) ≡ model.join (model.add a b) (model.add a c) };

    // where the algebra chooses, the join of two values is one of them
    ghost chosen: { model.chooses ≡ true → (a b : model.Carrier) → (model.join a b ≡ a) ⊎ (model.join a b ≡ b) };
}

// An algebra that says yes to `chooses`: each of its reports names the first tick.
pub trait Choosing: Algebra {
    fn chooses_always() -> bool
        ensures { (result ≡ true) × (Self.Algebra.model.chooses ≡ true) };
}
