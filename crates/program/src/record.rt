// A record: one step of a build.
ghost use Rattle.std.specs.Prelude.{◌≡◌, ◌≤◌, MatchOption};
ghost use Rattle.program.specs.Entries.{entry};
ghost use Rattle.program.specs.Format.{kind as kind_of, long};

use crate::kind::Kind;
use algebra::arc::Arc;
use algebra::label::Label;

#[derive(Drop)]
pub enum Record {
    Node { shelf: u8, label: Label },
    Pause { shelf: u8, label: Label },
    Table { shelf: u8, arcs: Vec<Arc> },
    Choice { first: u8, second: u8 },
    Sequence { first: u8, second: u8 },
    Loop { shelf: u8 },
    Fork { first: u8, second: u8 },
    Abort { first: u8, second: u8 },
    Clear { shelf: u8 },
}

impl Record {
    pub fn kind(&self) -> Kind
        ensures { result ≡ kind_of (entry self.now) }
    {
        match self {
            Record::Node { .. } => Kind::Node,
            Record::Pause { .. } => Kind::Pause,
            Record::Table { .. } => Kind::Table,
            Record::Choice { .. } => Kind::Choice,
            Record::Sequence { .. } => Kind::Sequence,
            Record::Loop { .. } => Kind::Loop,
            Record::Fork { .. } => Kind::Fork,
            Record::Abort { .. } => Kind::Abort,
            Record::Clear { .. } => Kind::Clear,
        }
    }

    // The length of the whole record in a file, where two bytes hold it.
    pub fn length(&self) -> Option<u16>
        ensures { MatchOption result (65536 ≤ long (entry self.now)) (λ n. n ≡ long (entry self.now)) }
    {
        match self {
            Record::Node { .. } | Record::Pause { .. } => Some(13),
            Record::Table { arcs, .. } => {
                let count = u16::try_from(arcs.len()).ok()?;
                count.checked_mul(10)?.checked_add(7)
            }
            Record::Choice { .. } | Record::Sequence { .. } => Some(6),
            Record::Fork { .. } | Record::Abort { .. } => Some(6),
            Record::Loop { .. } | Record::Clear { .. } => Some(5),
        }
    }
}
