// What report gives: the figure, None where it is absent; the first tick that reaches it, None where the algebra does
// not choose; and the shape of the rows, its two numbers apart, as the promise and the printout name them.
#[derive(Clone, Copy, PartialEq, Eq, Debug)]
pub struct Report<V> {
    pub figure: Option<V>,
    pub tick: Option<usize>,
    pub transient: usize,
    pub period: usize,
}
