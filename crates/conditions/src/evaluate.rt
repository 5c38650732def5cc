// A condition row of a table with no malformed row: the rows that it names are lower, so it goes down the table.
ghost use Rattle.compiled.specs.Sound.{Lawful};
ghost use Rattle.compiled.specs.Words.{graph_in};
ghost use Rattle.rows.specs.Faults.{Stands};
ghost use Rattle.conditions.specs.Evaluates.{Evaluates};
ghost use Rattle.compiled.specs.Parts.{Tabled, table_in};

use crate::bound::Bound;
use crate::property::{equal_constant, equal_properties};
use crate::truth::{Truths, any_truth, conjoined, disjoined, negated};
use compiled::row_at;

// The truth values that the row's condition can still have, with some elements not known yet. Of and, or the right-hand part comes first
// (02, Q-4): where it is false for and, true for or, and can be nothing else, the left-hand part is not looked at. The two arms mirror each
// other, with true and false exchanged; one arm for both would have to exchange them by a parameter.
pub fn condition(graph: &[u64], plan: &[u64], row: usize, b: Bound) -> Truths
    requires lawful { Lawful graph.now }
    requires tabled { Tabled plan.now × Stands (table_in plan.now) row }
    ensures { Evaluates (graph_in graph.now) (table_in plan.now) row b result }
{
    let r = row_at(plan, row);
    let kind = r.kind;
    match kind {
        16 => equal_constant(graph, b.of(r.p), r.q as u16, r.r as u64),
        17 => equal_properties(graph, b.of(r.p), r.q as u16, b.of(r.r), r.s as u16),
        18 => {
            let right = condition(graph, plan, r.q, b);
            let decides = right.no & !(right.yes | right.neither);
            if decides {
                return right;
            }
            conjoined(condition(graph, plan, r.p, b), right)
        },
        19 => {
            let right = condition(graph, plan, r.q, b);
            let decides = right.yes & !(right.no | right.neither);
            if decides {
                return right;
            }
            disjoined(condition(graph, plan, r.p, b), right)
        },
        20 => negated(condition(graph, plan, r.p, b)),
        _ => any_truth(),
    }
}
