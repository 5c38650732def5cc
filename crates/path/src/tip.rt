// What stands at the end of a path, and what a step changes there, for whoever changes a path in its place.

// The end of a path beside it: its number of edges, its last node, its last edge if it has one.
#[derive(Clone, Copy)]
pub struct End {
    pub last: usize,
    pub node: u16,
    pub edge: Option<u16>,
}

// A path then has `len` edges, and the words e and v at i.
#[derive(Clone, Copy)]
pub struct Change {
    pub len: usize,
    pub i: usize,
    pub e: u16,
    pub v: u16,
}
