// For `shortest`: whether an answer of the base joins the same nodes with fewer edges.
ghost use Rattle.std.specs.Prelude.{◌≡◌, ◌<◌, ◌≤◌, length};
ghost use Rattle.compiled.specs.Words.{nodes_in_lem};
ghost use Rattle.judge.specs.Judging.{NoneShorter};
ghost use Rattle.plan.specs.Ready.{Ready};

use bounds::lengths_of;
use plan::Compiled;
use walk::joins;

// Whether no answer with fewer than n edges leads from u to v; no match has a length that is not asked.
pub fn none_shorter(
    of: Compiled<'_>,
    fit: &mut [u64],
    work: &mut [u16],
    n: usize,
    u: u16,
    v: u16,
) -> bool
    requires { (401 ≤ length fit.old) × (length work.old ≡ 20000) × (n ≤ 200) × (u < nodes_in_lem of.graph.now) × (v < 256) }
    ensures { NoneShorter of.entry.graph.now of.entry.plan.now n u v result }
{
    let lengths = lengths_of(of.plan);
    for m in lengths.iter() {
        if n <= m {
            break;
        }
        if joins(of, fit, work, m, u, v) {
            return false;
        }
    }
    true
}
