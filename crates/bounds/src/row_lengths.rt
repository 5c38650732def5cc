// The numbers of edges up to 255 that a match can have.
ghost use Rattle.bits.specs.Sets.{set_of};
ghost use Rattle.rows.specs.Faults.{Stands};
ghost use Rattle.bounds.specs.Rows.{Possible};
ghost use Rattle.bounds.specs.Sums.{Repeated};
ghost use Rattle.compiled.specs.Parts.{Tabled, table_in};

use crate::numbers::END;
use crate::sums::{closed, multiples, sums};
use bits::Set;
use compiled::row_at;

// Those of low up to high matches; high: 65535 is no bound, and neither is one that allows 256 matches more than low, since the sums of so
// many that have an edge fall out.
fn repeated(s: Set, low: usize, high: usize) -> Set
    ensures { Repeated (set_of s.w) low high (set_of result.w) }
{
    let least = multiples(s, low);
    if high < END {
        if low <= high {
            let more = high - low;
            if more < Set::END {
                return sums(least, multiples(s.with(0), more));
            }
        }
    }
    closed(least, s)
}

// Those for the row's pattern.
pub fn possible(row: usize, plan: &[u64]) -> Set
    requires { Tabled plan.now × Stands (table_in plan.now) row }
    ensures { Possible (table_in plan.now) row result.w }
{
    let r = row_at(plan, row);
    let kind = r.kind;
    match kind {
        2..=4 => Set::single(1),
        5 => {
            let a = possible(r.p, plan);
            let b = possible(r.q, plan);
            a.union(b)
        }
        6 => {
            let a = possible(r.p, plan);
            let b = possible(r.q, plan);
            sums(a, b)
        }
        7 => possible(r.p, plan),
        8 => {
            let a = possible(r.p, plan);
            repeated(a, r.r, r.s)
        }
        _ => Set::single(0),
    }
}
