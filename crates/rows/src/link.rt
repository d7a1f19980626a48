// A number's key, and the number before it in the chain of that key: a number and no box, since a rack has no heap. The
// key has four bytes so that a link has eight, by which a chain is followed faster.
#[derive(Clone, Copy, Debug, Default)]
pub struct Link {
    pub key: u32,
    pub before: Option<u16>,
}
