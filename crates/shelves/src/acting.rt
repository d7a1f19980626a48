// Acting on a call whose questions before unrolling all said yes, a function for each. That they did is true of this call
// at this moment and not of a type, so each asks for it by one word. Node and pause differ in the rows written, the shape
// and the step, and share no more than the way they call, so each stands by itself.
ghost use Rattle.shelves.specs.Calls.{node as node_call, pause as pause_call, table as table_call, pair as pair_call, loop as loop_call, clear as clear_call, report as report_call, reported};
ghost use Rattle.shelves.specs.Inner.{CoreSaysYes, CoreDoes};
ghost use Rattle.shelves.specs.Told.{reply_of, report_of};

use crate::building::{empty, put_node, put_pause};
use crate::call::Pairing;
use crate::composing::{piece, put_loop, put_pair, put_table};
use crate::core_state::Core;
use crate::filled::{filled_shelf, place};
use crate::reply::{Answer, Reply};
use crate::report::Report;
use crate::telling::Shown;
use algebra::algebra::Algebra;
use algebra::arc::Arc;
use algebra::label::Label;

pub(crate) fn act_node<V: Algebra>(core: &mut Core<V>, shelf: u8, label: Label) -> Reply<V>
    requires { CoreSaysYes V.model V.means (node_call shelf label) core.old }
    ensures { CoreDoes V.model V.means (node_call shelf label) (reply_of V.model V.means result) core.old core.new }
{
    put_node(core, place(shelf), label);
    Ok(Answer::Accepted(0))
}

pub(crate) fn act_pause<V: Algebra>(core: &mut Core<V>, shelf: u8, label: Label) -> Reply<V>
    requires { CoreSaysYes V.model V.means (pause_call shelf label) core.old }
    ensures { CoreDoes V.model V.means (pause_call shelf label) (reply_of V.model V.means result) core.old core.new }
{
    put_pause(core, place(shelf), label);
    Ok(Answer::Accepted(0))
}

pub(crate) fn act_table<V: Algebra>(core: &mut Core<V>, shelf: u8, arcs: &[Arc]) -> Reply<V>
    requires { CoreSaysYes V.model V.means (table_call shelf arcs.now) core.old }
    ensures { CoreDoes V.model V.means (table_call shelf arcs.now) (reply_of V.model V.means result) core.old core.new }
{
    let number = put_table(core, place(shelf), arcs)?;
    Ok(Answer::Accepted(number))
}

pub(crate) fn act_loop<V: Algebra>(core: &mut Core<V>, shelf: u8) -> Reply<V>
    requires { CoreSaysYes V.model V.means (loop_call shelf) core.old }
    ensures { CoreDoes V.model V.means (loop_call shelf) (reply_of V.model V.means result) core.old core.new }
{
    let a = filled_shelf(&core.shelves, shelf);
    let number = put_loop(core, a)?;
    Ok(Answer::Accepted(number))
}

pub(crate) fn act_clear<V: Algebra>(core: &mut Core<V>, shelf: u8) -> Reply<V>
    requires { CoreSaysYes V.model V.means (clear_call shelf) core.old }
    ensures { CoreDoes V.model V.means (clear_call shelf) (reply_of V.model V.means result) core.old core.new }
{
    empty(core, place(shelf));
    Ok(Answer::Accepted(0))
}

// The report of a shelf, which only looks.
pub(crate) fn shelf_report<V: Algebra>(core: &Core<V>, shelf: u8) -> Report<V>
    requires { CoreSaysYes V.model V.means (report_call shelf) core.now }
    ensures { CoreDoes V.model V.means (report_call shelf) (reported (report_of V.model V.means result)) core.now core.now }
{
    let piece = piece(&core.shelves, place(shelf));
    let kept = core.cells.kept();
    Shown { piece, kept }.report()
}

pub(crate) fn act_report<V: Algebra>(core: &Core<V>, shelf: u8) -> Reply<V>
    requires { CoreSaysYes V.model V.means (report_call shelf) core.now }
    ensures { CoreDoes V.model V.means (report_call shelf) (reply_of V.model V.means result) core.now core.now }
{
    Ok(Answer::Reported(shelf_report(core, shelf)))
}

pub(crate) fn act_pair<V: Algebra>(
    core: &mut Core<V>,
    kind: Pairing,
    first: u8,
    second: u8,
) -> Reply<V>
    requires { CoreSaysYes V.model V.means (pair_call kind first second) core.old }
    ensures { CoreDoes V.model V.means (pair_call kind first second) (reply_of V.model V.means result) core.old core.new }
{
    let a = filled_shelf(&core.shelves, first);
    let b = filled_shelf(&core.shelves, second);
    let number = put_pair(core, kind, a, b)?;
    empty(core, b.place);
    Ok(Answer::Accepted(number))
}
