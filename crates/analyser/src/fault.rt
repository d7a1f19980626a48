// Why a file is refused, and how many of its records were accepted before.
ghost use Rattle.std.specs.Prelude.{◌≡◌};
ghost use Rattle.analyser.specs.Faults.{number_of};

use program::refusal::Refusal as FileRefusal;
use shelves::refusal::Refusal;

#[derive(Clone, Copy, PartialEq, Eq, Debug)]
pub enum Why {
    // the rack refused a record's call
    Rack(Refusal),
    // the file is too long, or a record cannot be read
    File(FileRefusal),
    // at the end not exactly one shelf is filled
    NotOne,
}

#[derive(Clone, Copy, PartialEq, Eq, Debug)]
pub struct Fault {
    pub accepted: usize,
    pub why: Why,
}

impl Why {
    // The number of the question that is answered no.
    pub fn number(self) -> u8
        ensures { result ≡ number_of self }
    {
        match self {
            Why::Rack(found) => found.number(),
            Why::File(found) => found.number(),
            // asked here alone; the others have their numbers where they are asked
            Why::NotOne => 18,
        }
    }
}
