// Filling a shelf from the working cells: the rows at the phases, absent past them.
ghost use Rattle.std.specs.Prelude.{◌≡◌, ℕ, ◌+◌, ◌<◌, ◌≤◌, ◌⊎◌, length, slice_index_or, None as absent};
ghost use Rattle.rows.specs.Filled.{kept_at, Filled};

use crate::cells::Cells;
use crate::place::Place;
use algebra::algebra::Algebra;

impl<'a, V: Algebra> Cells<'a, V> {
    // Writes one row of a shelf: the working cells up to the size, and absent past it.
    fn fill_row(&mut self, at: usize, from: usize, size: usize)
        requires within { (at + 64 ≤ 2048) × (2048 ≤ from) × (from + 64 ≤ 4096) × (size ≤ 64) }
        ensures same { self.new.lent.ghost_name ≡ self.old.lent.ghost_name }
        ensures len { length self.new.lent.now ≡ length self.old.lent.now }
        ensures row { (k : ℕ) → k < 64 → slice_index_or self.new.lent.now (at + k) absent ≡ kept_at self.old.lent.now from size k }
        ensures others { (j : ℕ) → (j < at) ⊎ (at + 64 ≤ j) → slice_index_or self.new.lent.now j absent ≡ slice_index_or self.old.lent.now j absent }
    {
        self.lent.copy_within(from..from + size, at);
        self.lent[at + size..at + 64].fill(None);
    }

    // Fills a shelf with the noted rows up to the size, and with absent past it.
    pub fn fill(&mut self, place: Place, size: usize)
        ensures same { self.new.lent.ghost_name ≡ self.old.lent.ghost_name }
        ensures filled { Filled self.old.lent.now self.new.lent.now place.shelf size }
    {
        let size = size.min(64);
        let pauses = 128 * place.shelf;
        self.fill_row(pauses, 2048, size);
        self.fill_row(pauses + 64, 3072, size);
    }
}
