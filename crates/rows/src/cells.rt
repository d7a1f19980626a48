// The cells that a rack is lent, and those among them that its shelves keep.
ghost use Rattle.std.specs.Prelude.{◌≡◌, ℕ, ◌+◌, ◌<◌, ◌≤◌, length, take, None as absent, slice_index_or, slice_set};
ghost use Rattle.rows.specs.Filled.{SamePast};

use algebra::algebra::Algebra;

// 128 cells for each of 16 shelves, then 2,048 to work in; any past 4,096 stay as they are. A row of pauses and one of
// exits are ranges of this one slice, since it is lent and what lies where in it is promised.
#[derive(Drop)]
pub struct Cells<'a, V> {
    pub lent: &'a mut [Option<V>],
    ghost room: { 4096 ≤ length lent.now },
}

// At least the first N of them, to read.
#[derive(Drop)]
pub struct Read<'a, V, const N: usize> {
    pub cells: &'a [Option<V>],
    ghost long: { N ≤ length cells.now },
}

// All that are lent.
pub type Room<'a, V> = Read<'a, V, 4096>;

// What the 16 shelves keep.
pub type Kept<'a, V> = Read<'a, V, 2048>;

impl<'a, V: Algebra> Cells<'a, V> {
    // Sets the first 4,096 to absent. As everywhere, `same` says that the caller's own slice is written, and no other.
    pub fn wipe(&mut self)
        ensures same { self.new.lent.ghost_name ≡ self.old.lent.ghost_name }
        ensures blank { (j : ℕ) → j < 4096 → slice_index_or self.new.lent.now j absent ≡ absent }
        ensures past { SamePast self.old.lent.now self.new.lent.now }
    {
        self.lent[..4096].fill(None);
    }

    pub fn room<'b>(&'b self) -> Room<'b, V>
        ensures { result.cells.now ≡ self.now.lent.now }
    {
        Read { cells: &*self.lent }
    }

    pub fn kept<'b>(&'b self) -> Kept<'b, V>
        ensures { result.cells.now ≡ take 2048 self.now.lent.now }
    {
        Read {
            cells: &self.lent[0..2048],
        }
    }

    // Notes pause and exit at tick n in the working cells.
    pub fn note(&mut self, n: usize, pause: Option<V>, exit: Option<V>)
        requires { n < 1024 }
        ensures same { self.new.lent.ghost_name ≡ self.old.lent.ghost_name }
        ensures noted { self.new.lent.now ≡ slice_set (slice_set self.old.lent.now (2048 + n) pause) (3072 + n) exit }
    {
        self.lent[2048 + n] = pause;
        self.lent[3072 + n] = exit;
    }
}
