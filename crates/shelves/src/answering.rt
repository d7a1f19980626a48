// Answering a call: the first no of its questions, or what it does.
ghost use Rattle.shelves.specs.Calls.{report as report_call};
ghost use Rattle.shelves.specs.Cores.{CoreAnswers};
ghost use Rattle.shelves.specs.Inner.{CoreSaysYes, CoreDoes};
ghost use Rattle.shelves.specs.Held.{call_of};
ghost use Rattle.shelves.specs.Told.{reply_of, shown};

use crate::acting::{
    act_clear, act_loop, act_node, act_pair, act_pause, act_report, act_table, shelf_report,
};
use crate::asks::first_no;
use crate::call::Call;
use crate::core_state::Core;
use crate::refusal::Refusal;
use crate::reply::Reply;
use crate::report::Report;
use algebra::algebra::Algebra;

// What a call does whose questions before unrolling all said yes.
fn act<V: Algebra>(core: &mut Core<V>, call: Call) -> Reply<V>
    requires { CoreSaysYes V.model V.means (call_of call) core.old }
    ensures { CoreDoes V.model V.means (call_of call.entry) (reply_of V.model V.means result) core.old core.new }
{
    // A match gives each call's own arguments to its function, which a table of closures could not.
    match call {
        Call::Node { shelf, label } => act_node(core, shelf, label),
        Call::Pause { shelf, label } => act_pause(core, shelf, label),
        Call::Table { shelf, arcs } => act_table(core, shelf, arcs),
        Call::Pair {
            kind,
            first,
            second,
        } => act_pair(core, kind, first, second),
        Call::Loop { shelf } => act_loop(core, shelf),
        Call::Clear { shelf } => act_clear(core, shelf),
        Call::Report { shelf } => act_report(core, shelf),
    }
}

// The answer to a call, and after any history the promise with this call added.
pub fn answer<V: Algebra>(core: &mut Core<V>, call: Call) -> Reply<V>
    ensures { CoreAnswers V.model V.means (call_of call.entry) (reply_of V.model V.means result) core.old core.new }
{
    first_no(core, call)?;
    act(core, call)
}

// The answer to a report, which only looks.
pub fn look<V: Algebra>(core: &Core<V>, shelf: u8) -> Result<Report<V>, Refusal>
    ensures { CoreAnswers V.model V.means (report_call shelf) (shown V.model V.means result) core.now core.now }
{
    first_no(core, Call::Report { shelf })?;
    Ok(shelf_report(core, shelf))
}
