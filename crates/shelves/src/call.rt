// The calls of a rack, as values.
ghost use Rattle.std.specs.Prelude.{◌≡◌};
ghost use Rattle.shelves.specs.Calls.{node as node_call, pause as pause_call, table as table_call, pair as pair_call, loop as loop_call, clear as clear_call, report as report_call};
ghost use Rattle.shelves.specs.Held.{call_of};

use algebra::arc::Arc;
use algebra::label::Label;

// The ways of putting two pieces together.
#[derive(Clone, Copy, PartialEq, Eq, Debug)]
pub enum Pairing {
    Choice,
    Sequence,
    Fork,
    Abort,
}

#[derive(Clone, Copy, PartialEq, Eq, Debug)]
pub enum Call<'a> {
    Node {
        shelf: u8,
        label: Label,
    },
    Pause {
        shelf: u8,
        label: Label,
    },
    Table {
        shelf: u8,
        arcs: &'a [Arc],
    },
    Pair {
        kind: Pairing,
        first: u8,
        second: u8,
    },
    Loop {
        shelf: u8,
    },
    Clear {
        shelf: u8,
    },
    Report {
        shelf: u8,
    },
}

// A caller may write a call as its case, or make it by its name.
impl<'a> Call<'a> {
    pub fn node(shelf: u8, label: Label) -> Call<'a>
        ensures { call_of result ≡ node_call shelf label }
    {
        Call::Node { shelf, label }
    }

    pub fn pause(shelf: u8, label: Label) -> Call<'a>
        ensures { call_of result ≡ pause_call shelf label }
    {
        Call::Pause { shelf, label }
    }

    pub fn table(shelf: u8, arcs: &'a [Arc]) -> Call<'a>
        ensures { call_of result ≡ table_call shelf arcs.now }
    {
        Call::Table { shelf, arcs }
    }

    pub fn pair(kind: Pairing, first: u8, second: u8) -> Call<'a>
        ensures { call_of result ≡ pair_call kind first second }
    {
        Call::Pair {
            kind,
            first,
            second,
        }
    }

    // The call loop, whose name is a word of the language.
    pub fn repeat(shelf: u8) -> Call<'a>
        ensures { call_of result ≡ loop_call shelf }
    {
        Call::Loop { shelf }
    }

    pub fn clear(shelf: u8) -> Call<'a>
        ensures { call_of result ≡ clear_call shelf }
    {
        Call::Clear { shelf }
    }

    pub fn report(shelf: u8) -> Call<'a>
        ensures { call_of result ≡ report_call shelf }
    {
        Call::Report { shelf }
    }
}
