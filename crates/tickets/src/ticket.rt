// Tickets: each names a shelf that a rack has filled.
ghost use Rattle.std.specs.Prelude.{◌≡◌, ◌≤◌};

use shelves::refusal::Refusal;

// It cannot be copied or let fall, and only this crate makes one: it ends built in or cleared.
pub struct Ticket {
    pub(crate) shelf: u8,
    ghost within: { shelf ≤ 15 },
}

impl Ticket {
    // The shelf that it names.
    pub fn shelf(&self) -> u8
        ensures { result ≡ self.now.shelf }
    {
        self.shelf
    }
}

// What a build call gives: the ticket of its result, and the number that it replies.
pub struct Built {
    pub ticket: Ticket,
    pub number: usize,
}

// A refused call's ticket, handed back.
pub struct Back {
    pub ticket: Ticket,
    pub why: Refusal,
}

// A refused call's two tickets, handed back. Not a `Back` of some type: the tickets would have no names.
pub struct BothBack {
    pub first: Ticket,
    pub second: Ticket,
    pub why: Refusal,
}
