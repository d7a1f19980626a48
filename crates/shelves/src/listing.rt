// A whole list of calls, answered one after the other.
ghost use Rattle.shelves.specs.Cores.{CoreRuns};

use crate::answering::answer;
use crate::call::Call;
use crate::core_state::Core;
use crate::reply::Reply;
use algebra::algebra::Algebra;

// Answers as many calls as there are replies lent for, and says how many: after any history the promise holds with them added.
pub fn answer_all<V: Algebra>(core: &mut Core<V>, calls: &[Call], replies: &mut [Reply<V>]) -> usize
    ensures { CoreRuns V.model V.means calls.now replies.old replies.new result core.old core.new }
{
    let n = calls.len().min(replies.len());
    // Not a `zip`: of what is written through one, nothing is known once it ends.
    for (i, reply) in replies[..n].iter_mut().enumerate() {
        *reply = answer(core, calls[i]);
    }
    n
}
