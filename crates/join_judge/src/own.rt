// The own words of one part: its path, and the values of the variables that it uses.
ghost use Rattle.std.specs.Prelude.{◌≡◌, ◌<◌, ◌≤◌, length};
ghost use Rattle.join_judge.specs.Own.{Appended, Fits, OwnWritten, SomeValued, ValueAppended};
ghost use Rattle.parts.specs.Plans.{PlanReady};

use crate::joint_values::value_to;
use crate::path_ends::Span;
use parts::{Shape, type_in};
use words::copy_at;

// The words of a span behind the first n of own.
fn append(own: &mut [u16], words: &[u16], n: usize, s: Span) -> usize
    requires { Fits own.old words.now n s.from s.to }
    ensures { Appended own.old words.now n s.from s.to own.new result }
{
    copy_at(own, n, &words[s.from..s.to]);
    n + (s.to - s.from)
}

// The same if they are the value of x, and the part uses x.
fn append_value(plan: &[u64], own: &mut [u16], words: &[u16], x: usize, n: usize, s: Span) -> usize
    requires { PlanReady plan.now × (1 ≤ x) × (x < 9) × Fits own.old words.now n s.from s.to }
    ensures { ValueAppended plan.now own.old words.now x n s.from s.to own.new result }
{
    if type_in(plan, x) == 0 {
        return n;
    }
    append(own, words, n, s)
}

// The values of all parts stand from `start` on.
pub fn write_own(
    plan: &[u64],
    own: &mut [u16],
    words: &[u16],
    shape: Shape,
    path: Span,
    start: usize,
) -> usize
    requires { PlanReady plan.now × SomeValued words.now shape.types start × (length words.now ≤ 20000) × (length own.old ≡ 20000) × (path.from ≤ path.to) × (path.to ≤ start) × (start ≤ length words.now) }
    ensures { OwnWritten plan.now words.now shape.types path.from path.to start own.new result }
{
    let mut n = append(own, words, 0, path);
    let mut place = start;
    for x in 1..9 {
        let to = value_to(words, shape.types[x], place);
        n = append_value(plan, own, words, x, n, Span { from: place, to });
        place = to;
    }
    n
}
