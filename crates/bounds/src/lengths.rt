// The lengths that answers of an accepted table can have.
ghost use Rattle.std.specs.Prelude.{◌≡◌, ◌≤◌, length};
ghost use Rattle.std.proofs.Math.Option.{none};
ghost use Rattle.bounds.specs.Lengths.{LengthsFilled, OnlyLengths};
ghost use Rattle.meaning.specs.Table.{pattern_fault};
ghost use Rattle.compiled.specs.Derived.{plan_words, watched_in};
ghost use Rattle.compiled.specs.Parts.{Tabled, table_in};
ghost use Rattle.plan.specs.Lengths.{LengthsAre};

use crate::row_lengths::possible;
use bits::Set;
use compiled::{lengths, put_lengths, rows};

// No answer has a number of edges below 256 that is not in the set.
pub fn lengths_of(plan: &[u64]) -> Set
    requires { Tabled plan.now × (pattern_fault (table_in plan.now) ≡ none) }
    ensures { OnlyLengths plan.now result.w }
{
    possible(rows(plan) - 1, plan)
}

// The set put into the plan, for a call that asks for it more than once.
pub fn fill_lengths(plan: &mut [u64])
    requires { Tabled plan.old × (pattern_fault (table_in plan.old) ≡ none) × (length plan.old ≡ plan_words) × (watched_in plan.old ≡ 0) }
    ensures { LengthsFilled plan.old plan.new }
{
    let n = rows(plan);
    let numbers = possible(n - 1, plan);
    put_lengths(plan, numbers);
}

// The set that the plan has.
pub fn kept_lengths(plan: &[u64]) -> Set
    requires { LengthsAre plan.now × (plan_words ≤ length plan.now) × (pattern_fault (table_in plan.now) ≡ none) }
    ensures { OnlyLengths plan.now result.w }
{
    lengths(plan)
}
