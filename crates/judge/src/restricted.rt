// The restrictor: the base, and for `shortest` that no answer with the same ends has fewer edges.
ghost use Rattle.std.specs.Prelude.{◌≡◌, ◌≤◌, length};
ghost use Rattle.compiled.specs.Words.{nodes_in_lem};
ghost use Rattle.judge.specs.Judging.{JudgedAnswer, NodesBelow, Told};
ghost use Rattle.plan.specs.Ready.{Ready};

use crate::repeats::repeats_nothing;
use crate::shorter::none_shorter;
use compiled::{base_of, is_shortest};
use plan::Compiled;

// Whether an answer of the pattern is one of the restricted pattern.
pub fn keeps_restrictor(
    of: Compiled<'_>,
    fit: &mut [u64],
    rec: &[u16],
    last: usize,
    work: &mut [u16],
) -> bool
    requires { Told rec.now last × NodesBelow rec.now last (nodes_in_lem of.graph.now) × (401 ≤ length fit.old) × (length work.old ≡ 20000) }
    ensures { JudgedAnswer of.entry.graph.now of.entry.plan.now rec.now result }
{
    let base = base_of(of.plan);
    if repeats_nothing(rec, last, base) {
        if !is_shortest(of.plan) {
            return true;
        }
        let end = 2 * last + 1;
        return none_shorter(of, fit, work, last, rec[1], rec[end]);
    }
    false
}
