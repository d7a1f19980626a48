// What a call answers: what it did, or the refusal.
use crate::refusal::Refusal;
use crate::report::Report;

#[derive(Clone, Copy, PartialEq, Eq, Debug)]
pub enum Answer<V> {
    // the number of the first situation that equals an earlier one, or 0 where nothing is unrolled: by the rules of the calls
    // node, pause and clear reply 0
    Accepted(usize),
    Reported(Report<V>),
}

pub type Reply<V> = Result<Answer<V>, Refusal>;
