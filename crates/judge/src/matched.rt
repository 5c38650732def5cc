// Whether the words, from the path on, are values with which the path is a match of the pattern.
ghost use Rattle.std.specs.Prelude.{length};
ghost use Rattle.judge.specs.Judging.{Matches};
ghost use Rattle.plan.specs.Ready.{Prepared};

use compiled::rows;
use oracle::{known_slots, path_ends};
use plan::Compiled;

// The values end where the words end, and the end of the path is an end of a match with them.
pub fn matches(of: Compiled<'_>, fit: &[u64], rec: &[u16], last: usize) -> bool
    requires { Prepared of.graph.now of.plan.now fit.now rec.now (length rec.now) last }
    ensures { Matches of.entry.graph.now of.entry.plan.now rec.now last result }
{
    let known = rec.len();
    let row = rows(of.plan) - 1;
    let slots = known_slots(of.plan, rec, known, last, row);
    if slots.end != known {
        return false;
    }
    path_ends(of, fit, rec, known, last)
}
