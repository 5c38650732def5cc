// The greatest number of edges of a match; 65535 is no bound.
ghost use Rattle.std.specs.Prelude.{◌≤◌};
ghost use Rattle.rows.specs.Faults.{Stands};
ghost use Rattle.bounds.specs.Rows.{Most, MostRepeated};
ghost use Rattle.compiled.specs.Parts.{Tabled, table_in};

use crate::numbers::{END, greater, product, sum};
use compiled::row_at;

// The bound of up to n matches with at most a edges each; n: 65535 is no bound.
fn repeated(n: usize, a: usize) -> usize
    requires { (n ≤ 65535) × (a ≤ 65535) }
    ensures { MostRepeated n a result }
{
    if n == END {
        return END;
    }
    if a == END {
        return END;
    }
    product(n, a)
}

// The greatest number for the row's pattern.
pub fn most(row: usize, plan: &[u64]) -> usize
    requires { Tabled plan.now × Stands (table_in plan.now) row }
    ensures { Most (table_in plan.now) row result }
{
    let r = row_at(plan, row);
    let kind = r.kind;
    match kind {
        2..=4 => 1,
        5 => {
            let a = most(r.p, plan);
            let b = most(r.q, plan);
            greater(a, b)
        }
        6 => {
            let a = most(r.p, plan);
            let b = most(r.q, plan);
            sum(a, b)
        }
        7 => most(r.p, plan),
        8 => {
            let a = most(r.p, plan);
            repeated(r.s, a)
        }
        _ => 0,
    }
}
