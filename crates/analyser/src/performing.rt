// Records performed on a rack, each as its call.
ghost use Rattle.program.specs.Entries.{entry};
ghost use Rattle.shelves.specs.Changing.{answered};
ghost use Rattle.shelves.specs.Cores.{CoreAnswers};
ghost use Rattle.analyser.specs.Cores.{CoreTook};
ghost use Rattle.analyser.specs.Records.{as_call};

use crate::fault::{Fault, Why};
use algebra::algebra::Algebra;
use program::record::Record;
use rack::rack::Rack;
use shelves::refusal::Refusal;

// Each case is a call with arguments of its own, so a match is plainest.
fn perform<V: Algebra>(rack: &mut Rack<V>, of: &Record) -> Result<usize, Refusal>
    ensures { CoreAnswers V.model V.means (as_call (entry of.now)) (answered V.model result) rack.old.core rack.new.core }
{
    match of {
        Record::Node { shelf, label } => rack.node(*shelf, *label),
        Record::Pause { shelf, label } => rack.pause(*shelf, *label),
        Record::Table { shelf, arcs } => rack.table(*shelf, arcs),
        Record::Choice { first, second } => rack.choice(*first, *second),
        Record::Sequence { first, second } => rack.sequence(*first, *second),
        Record::Loop { shelf } => rack.repeat(*shelf),
        Record::Fork { first, second } => rack.fork(*first, *second),
        Record::Abort { first, second } => rack.abort(*first, *second),
        Record::Clear { shelf } => rack.clear(*shelf),
    }
}

// Performs records up to the first that is refused.
pub(crate) fn take_all<V: Algebra>(rack: &mut Rack<V>, records: &[Record]) -> Result<(), Fault>
    ensures { CoreTook V.model V.means records.now rack.old.core rack.new.core result }
{
    for (i, record) in records.iter().enumerate() {
        // not map_err(..)?, after which the loop's goal stays open
        if let Err(found) = perform(rack, record) {
            return Err(Fault {
                accepted: i,
                why: Why::Rack(found),
            });
        }
    }
    Ok(())
}
