// A row of the table, and the sort of its kind.
ghost use Rattle.std.specs.Prelude.{◌≡◌, ◌<◌, ◌≤◌, ◌+◌, ◌*◌, length};
ghost use Rattle.rows.specs.Rows.{Reads, pattern_kind_lem, condition_kind_lem, sort_of_lem};

use words::wide;

// 01: a row of five numbers.
#[derive(Clone, Copy)]
pub struct Row {
    pub kind: usize,
    pub p: usize,
    pub q: usize,
    pub r: usize,
    pub s: usize,
}

// The five numbers of row i.
pub fn row_at(pattern: &[u16], i: usize) -> Row
    requires { i * 5 + 5 ≤ length pattern.now }
    ensures { Reads pattern.now i result }
{
    let at = i * 5;
    let kind = wide(pattern[at]);
    let p = wide(pattern[at + 1]);
    let q = wide(pattern[at + 2]);
    let r = wide(pattern[at + 3]);
    let s = wide(pattern[at + 4]);
    Row { kind, p, q, r, s }
}

// What the kind says that a row is.
#[derive(Clone, Copy, PartialEq, Eq)]
pub enum Sort {
    Pattern,
    Condition,
    Unknown,
}

// Ranges of kinds: 1 to 8 patterns, 16 to 20 conditions.
pub fn sort_of(kind: usize) -> Sort
    ensures { result ≡ sort_of_lem kind }
{
    match kind {
        1..=8 => Sort::Pattern,
        16..=20 => Sort::Condition,
        _ => Sort::Unknown,
    }
}

// Whether a row of the kind is a pattern.
pub fn is_pattern(kind: usize) -> bool
    ensures { result ≡ pattern_kind_lem kind }
{
    sort_of(kind) == Sort::Pattern
}

// Whether a row of the kind is a condition.
pub fn is_condition(kind: usize) -> bool
    ensures { result ≡ condition_kind_lem kind }
{
    sort_of(kind) == Sort::Condition
}
