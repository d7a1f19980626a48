// The shape of a piece's rows: from the transient on both repeat with the period.
ghost use Rattle.std.specs.Prelude.{◌+◌, ◌≤◌};

#[derive(Clone, Copy, Debug, PartialEq, Eq)]
pub struct Shape {
    pub transient: usize,
    pub period: usize,
    ghost least: { 1 ≤ period },
    ghost most: { transient + period ≤ 64 },
}
