// Reads a whole file: its records up to the end, or up to the first one that is refused.
ghost use Rattle.std.specs.Prelude.{map, MatchResult};
ghost use Rattle.program.specs.Entries.{entry};
ghost use Rattle.program.specs.Files.{Holds, AsksMemory};

use crate::fault::Fault;
use crate::read::read;
use crate::record::Record;
use crate::refusal::Refusal;
use std::alloc::{AllocError, Global};

// The most bytes that a file may have.
pub const MOST_BYTES: usize = 32_768;

// The records before the refusal, or all of them where none is refused. No `Result`, since the records are wanted
// either way.
#[derive(Drop)]
pub struct Listing {
    pub records: Vec<Record>,
    pub refusal: Option<Refusal>,
}

pub fn list(heap: Global, bytes: &[u8]) -> Result<Listing, AllocError>
    ensures { MatchResult result (λ l. Holds bytes.now (map entry l.records.items) l.refusal) (λ e. AsksMemory bytes.now) }
{
    let mut records = Vec::new(heap);
    if bytes.len() > MOST_BYTES {
        let refusal = Some(Refusal::Large);
        return Ok(Listing { records, refusal });
    }
    // Each record says itself how long it is, so the loop goes by what is left.
    let mut left = bytes;
    while !left.is_empty() {
        match read(heap, left) {
            Ok((record, rest)) => {
                records.push(record)?;
                left = rest;
            }
            Err(Fault::Refused(why)) => return Ok(Listing {
                records,
                refusal: Some(why),
            }),
            // the reader's want of memory is this function's
            Err(Fault::Memory) => return Err(AllocError),
        }
    }
    Ok(Listing {
        records,
        refusal: None,
    })
}
