// Types after Figure 2, down the table, and 16: a row with no type.
ghost use Rattle.std.specs.Prelude.{◌<◌, ◌+◌};
ghost use Rattle.meaning.specs.Table.{rows_of, fault16};
ghost use Rattle.rows.specs.Faults.{Stands, Tells};
ghost use Rattle.table.specs.Ready.{Typable};
ghost use Rattle.table.specs.Typing.{TypeIs, FitsAt, Clashes};

use rows::row_at;
use typecode::{CLASH, EDGE, NODE, is_single, joined_type, named_type, repeated_type, union_type};

// The type of x in a pattern row whose conditions all fit, as a number.
pub fn type_of(pattern: &[u16], row: usize, x: usize) -> u64
    requires { Typable pattern.now row }
    ensures { TypeIs pattern.now row x result }
{
    let r = row_at(pattern, row);
    let kind = r.kind;
    match kind {
        1 => named_type(r.p, x, NODE),
        2..=4 => named_type(r.p, x, EDGE),
        5 => {
            let a = type_of(pattern, r.p, x);
            let b = type_of(pattern, r.q, x);
            union_type(a, b)
        }
        6 => {
            let a = type_of(pattern, r.p, x);
            let b = type_of(pattern, r.q, x);
            joined_type(a, b)
        }
        7 => type_of(pattern, r.p, x),
        8 => repeated_type(type_of(pattern, r.p, x)),
        _ => 0,
    }
}

// Whether a condition row names only variables that the pattern row `part` types Node or Edge.
fn fits(pattern: &[u16], part: usize, row: usize) -> bool
    requires { Typable pattern.now part × Stands pattern.now row }
    ensures { FitsAt pattern.now part row result }
{
    let r = row_at(pattern, row);
    let kind = r.kind;
    match kind {
        16 => is_single(type_of(pattern, part, r.p)),
        17 => {
            if is_single(type_of(pattern, part, r.p)) {
                return is_single(type_of(pattern, part, r.r));
            }
            false
        }
        18..=19 => {
            if fits(pattern, part, r.p) {
                return fits(pattern, part, r.q);
            }
            false
        }
        20 => fits(pattern, part, r.p),
        _ => false,
    }
}

// Whether a variable of the row has no type.
fn clashes(pattern: &[u16], row: usize) -> bool
    requires { Typable pattern.now row }
    ensures { Clashes pattern.now row result }
{
    for x in 1..9 {
        if type_of(pattern, row, x) == CLASH {
            return true;
        }
    }
    false
}

// 16: no type; a condition's fault counts at its kind 7 row.
pub fn untyped(pattern: &[u16], i: usize) -> bool
    requires { Typable pattern.now i }
    ensures { Tells (fault16 (rows_of pattern.now)) i result }
{
    let r = row_at(pattern, i);
    if clashes(pattern, i) {
        return true;
    }
    let kind = r.kind;
    match kind {
        7 => !fits(pattern, r.p, r.q),
        _ => false,
    }
}
