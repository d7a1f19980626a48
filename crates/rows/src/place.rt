// A place on the rack: one of its 16 shelves.
ghost use Rattle.std.specs.Prelude.{◌≤◌};

#[derive(Clone, Copy, Debug, PartialEq, Eq)]
pub struct Place {
    pub shelf: usize,
    ghost within: { shelf ≤ 15 },
}
