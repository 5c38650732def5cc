// The verdict on any words.
ghost use Rattle.std.specs.Prelude.{◌≡◌, ◌<◌, ◌≤◌, length};
ghost use Rattle.join_judge.specs.Judging.{JoinJudges, PartJudged, PartsJudged, SomeLaid};
ghost use Rattle.join_judge.specs.Paths.{Begun};
ghost use Rattle.parts.specs.Plans.{QueryPlanned};

use crate::joint_values::values_end;
use crate::named::are_names;
use crate::own::write_own;
use crate::path_ends::{path_at, paths_end};
use parts::{Shape, plan_of};
use plan::Compiled;
use records::Record;

// Whether the own words of the part i are a record of it. The paths end at `end`.
fn judge_part(
    graph: &[u64],
    plans: &[u64],
    words: &[u16],
    shape: Shape,
    end: usize,
    i: usize,
    work: &mut [u16],
) -> bool
    requires { SomeLaid graph.now plans.now words.now shape end × (length words.now ≤ 20000) × (i < shape.parts) × (length work.old ≡ 20000) }
    ensures { PartJudged graph.now plans.now words.now shape end i result }
{
    let mut own = [0u16; 20000];
    let plan = plan_of(plans, i);
    let n = write_own(plan, &mut own, words, shape, path_at(words, i), end);
    judge::judge(Compiled { graph, plan }, &own[0..n], work)
}

// Whether those of each part are.
fn judge_parts(
    graph: &[u64],
    plans: &[u64],
    words: &[u16],
    shape: Shape,
    end: usize,
    work: &mut [u16],
) -> bool
    requires { SomeLaid graph.now plans.now words.now shape end × (length words.now ≤ 20000) × (length work.old ≡ 20000) }
    ensures { PartsJudged graph.now plans.now words.now shape end result }
{
    for i in 0..shape.parts {
        if !judge_part(graph, plans, words, shape, end, i, work) {
            return false;
        }
    }
    true
}

// The paths end at `end`.
fn judge_values(
    graph: &[u64],
    plans: &[u64],
    words: &[u16],
    shape: Shape,
    end: usize,
    work: &mut [u16],
) -> bool
    requires { QueryPlanned graph.now plans.now shape × Begun words.now shape.parts end × (length words.now ≤ 20000) × (length work.old ≡ 20000) }
    ensures { JoinJudges graph.now plans.now words.now shape result }
{
    let to = values_end(words, shape, end);
    if words.len() < to {
        return false;
    }
    if !are_names(words, shape, to) {
        return false;
    }
    judge_parts(graph, plans, words, shape, end, work)
}

// Whether the words are a record of the join. No record has more than 20,000 words.
pub fn judge(graph: &[u64], plans: &[u64], words: &[u16], shape: Shape, work: &mut [u16]) -> bool
    requires { QueryPlanned graph.now plans.now shape × (length work.old ≡ 20000) }
    ensures { JoinJudges graph.now plans.now words.now shape result }
{
    if Record::WORK < words.len() {
        return false;
    }
    match paths_end(words, shape.parts) {
        Some(end) => judge_values(graph, plans, words, shape, end, work),
        None => false,
    }
}
