// A listed file run on a rack.
ghost use Rattle.analyser.specs.Cores.{CoreWorks};

use crate::fault::{Fault, Why};
use crate::performing::take_all;
use crate::sole::sole;
use algebra::algebra::Algebra;
use program::file::Listing;
use rack::rack::Rack;
use shelves::report::Report;

// Runs every record as its call and reports the one filled shelf. A file that is refused leaves what its accepted records made.
pub fn work<V: Algebra>(rack: &mut Rack<V>, listing: &Listing) -> Result<Report<V>, Fault>
    ensures { CoreWorks V.model V.means listing.now rack.old.core rack.new.core result }
{
    take_all(rack, &listing.records)?;
    let accepted = listing.records.len();
    if let Some(found) = listing.refusal {
        return Err(Fault {
            accepted,
            why: Why::File(found),
        });
    }
    sole(rack).ok_or(Fault {
        accepted,
        why: Why::NotOne,
    })
}
