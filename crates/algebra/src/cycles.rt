// A sum of cycles in words.
ghost use Rattle.std.specs.Prelude.{Some};
ghost use Rattle.algebra.specs.Words.{cycles_words};

use std::fmt;

// One at the top may be past it, so it is shown as `over`.
#[derive(Clone, Copy, PartialEq, Eq, Debug)]
pub struct Cycles(pub u32);

impl fmt::Display for Cycles {
    ghost output = { λ sum. Some (cycles_words sum.0) };

    fn fmt<W: fmt::Write>(&self, f: &mut fmt::Formatter<W>) -> fmt::Result {
        let cycles = self.0;
        if cycles == u32::MAX {
            f.write_str("over")
        } else {
            write!(f, "{cycles}")
        }
    }
}
