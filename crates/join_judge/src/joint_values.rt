// Where values end.
ghost use Rattle.std.specs.Prelude.{◌≤◌, length};
ghost use Rattle.join_judge.specs.Own.{ValuesEnd};
ghost use Rattle.records.specs.Slots.{SlotEnd};

use parts::Shape;
use records::{slots_from, value_end};

// Where a value of the type t ends that is to stand at place; 0 is no type, and no value.
pub fn value_to(words: &[u16], t: u64, place: usize) -> usize
    requires { (length words.now ≤ 20000) × (place ≤ length words.now) }
    ensures { SlotEnd words.now t place result }
{
    if t == 0 {
        return place;
    }
    value_end(words, words.len(), t, place)
}

// Where the values of all parts end that stand from `start` on; past the words if they do not end there.
pub fn values_end(words: &[u16], shape: Shape, start: usize) -> usize
    requires { (length words.now ≤ 20000) × (start ≤ length words.now) }
    ensures { ValuesEnd words.now shape.types start result }
{
    let types = shape.types;
    slots_from(words, words.len(), &types, start).end
}
