// A call that may change a rack of either kind, answered by a result.
ghost use Rattle.std.specs.Prelude.{OnOk};
ghost use Rattle.std.specs.List.{AllByRecursion};
ghost use Rattle.shelves.specs.Held.{state_of, call_of};
ghost use Rattle.shelves.specs.Changing.{Changing, answered};
ghost use Rattle.shelves.specs.Cores.{CoreAnswers};
ghost use Rattle.shelves.specs.Filling.{IsFilled, filled_by};

use crate::answering::answer;
use crate::call::Call;
use crate::core_state::Core;
use crate::refusal::Refusal;
use crate::reply::Answer;
use algebra::algebra::Algebra;

pub fn change<V: Algebra>(core: &mut Core<V>, call: Call) -> Result<usize, Refusal>
    requires { Changing (call_of call) }
    ensures answers { CoreAnswers V.model V.means (call_of call.entry) (answered V.model result) core.old core.new }
    ensures fills { OnOk result (AllByRecursion (IsFilled (state_of V.model V.means core.new)) (filled_by (call_of call.entry))) }
{
    match answer(core, call)? {
        Answer::Accepted(number) => Ok(number),
        Answer::Reported(_) => unreachable(),
    }
}
