// What may not occur twice in a path (01: trail, no edge twice; simple, no node twice).

#[derive(Clone, Copy, PartialEq, Eq)]
pub enum Base {
    Trail,
    Simple,
}
