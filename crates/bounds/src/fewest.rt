// The least number of edges of a match, or 65535 where it is greater.
ghost use Rattle.rows.specs.Faults.{Stands};
ghost use Rattle.bounds.specs.Rows.{Fewest};
ghost use Rattle.compiled.specs.Parts.{Tabled, table_in};

use crate::numbers::{product, smaller, sum};
use compiled::row_at;

// The least number for the row's pattern. Not one with `most`: three of five arms differ, so that a common function would have as many
// closures as arms.
pub fn least(row: usize, plan: &[u64]) -> usize
    requires { Tabled plan.now × Stands (table_in plan.now) row }
    ensures { Fewest (table_in plan.now) row result }
{
    let r = row_at(plan, row);
    let kind = r.kind;
    match kind {
        2..=4 => 1,
        5 => {
            let a = least(r.p, plan);
            let b = least(r.q, plan);
            smaller(a, b)
        }
        6 => {
            let a = least(r.p, plan);
            let b = least(r.q, plan);
            sum(a, b)
        }
        7 => least(r.p, plan),
        8 => {
            let a = least(r.p, plan);
            product(r.r, a)
        }
        _ => 0,
    }
}
