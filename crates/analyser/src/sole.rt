// The one filled shelf of a rack.
ghost use Rattle.analyser.specs.Cores.{CoreSole};

use algebra::algebra::Algebra;
use rack::rack::Rack;
use shelves::report::Report;

// The report of the one filled shelf, or None where not exactly one is filled.
pub(crate) fn sole<V: Algebra>(rack: &Rack<V>) -> Option<Report<V>>
    ensures { CoreSole V.model V.means rack.now.core result }
{
    let mut filled = (0..16).filter_map(|shelf| rack.report(shelf).ok());
    let report = filled.next()?;
    match filled.next() {
        None => Some(report),
        Some(_) => None,
    }
}
