// 14: a repetition over a body that can match without an edge. 15: a third repetition around two.
ghost use Rattle.std.specs.Prelude.{◌≡◌, ◌<◌, ◌+◌};
ghost use Rattle.meaning.specs.Table.{rows_of, fault14, fault15};
ghost use Rattle.rows.specs.Faults.{Stands};
ghost use Rattle.meaning.specs.Basics.{max};
ghost use Rattle.table.specs.Repetition.{Edgeless, Depth};

use rows::row_at;

// Whether a pattern row can match without an edge.
pub fn edgeless(pattern: &[u16], row: usize) -> bool
    requires { Stands pattern.now row }
    ensures { Edgeless pattern.now row result }
{
    let r = row_at(pattern, row);
    let kind = r.kind;
    match kind {
        2..=4 => false,
        5 => {
            if edgeless(pattern, r.p) {
                return true;
            }
            edgeless(pattern, r.q)
        }
        6 => {
            if edgeless(pattern, r.p) {
                return edgeless(pattern, r.q);
            }
            false
        }
        7 => edgeless(pattern, r.p),
        8 => r.r == 0,
        _ => true,
    }
}

// 14: a repetition over a body that can match without an edge.
pub fn repeats_edgeless(pattern: &[u16], i: usize) -> bool
    requires { Stands pattern.now i }
    ensures { result ≡ fault14 (rows_of pattern.now) i }
{
    let r = row_at(pattern, i);
    let kind = r.kind;
    match kind {
        8 => edgeless(pattern, r.p),
        _ => false,
    }
}

// The greater of two depths.
fn greater(a: usize, b: usize) -> usize
    ensures { result ≡ max a b }
{
    if a <= b { b } else { a }
}

// How many repetitions stand one in another, from a pattern row down.
pub fn depth(pattern: &[u16], row: usize) -> usize
    requires { Stands pattern.now row }
    ensures { Depth pattern.now row result }
{
    let r = row_at(pattern, row);
    let kind = r.kind;
    match kind {
        5..=6 => {
            let a = depth(pattern, r.p);
            let b = depth(pattern, r.q);
            greater(a, b)
        }
        7 => depth(pattern, r.p),
        8 => 1 + depth(pattern, r.p),
        _ => 0,
    }
}

// 15: a third repetition around two.
pub fn too_deep(pattern: &[u16], i: usize) -> bool
    requires { Stands pattern.now i }
    ensures { result ≡ fault15 (rows_of pattern.now) i }
{
    let r = row_at(pattern, i);
    let kind = r.kind;
    match kind {
        8 => 2 <= depth(pattern, r.p),
        _ => false,
    }
}
