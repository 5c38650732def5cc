// What is given of a record to those who read it.
use crate::at::At;

// Its first `known` words, its path of `last` edges, and the places where the values of the variables begin.
#[derive(Clone, Copy)]
pub struct Given {
    pub known: usize,
    pub last: usize,
    pub at: At,
}
