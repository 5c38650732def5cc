// The values of a record's variables stand one after another: where each begins, and where the last one ends.
ghost use Rattle.std.specs.Prelude.{◌<◌, ◌≤◌, length, take};
ghost use Rattle.records.specs.Slots.{Slot, SlotEnd, Slotted};

use crate::at::At;
use crate::value_ends::{type_of, value_end};

// Where the values begin, and where they end.
#[derive(Clone, Copy)]
pub struct Slots {
    pub at: At,
    // The place after the last value, or NONE while that is not known.
    pub end: usize,
}

// Where a variable's value begins that is to stand at place; 0 is not used, 7 has no type.
fn slot(t: u64, place: usize) -> usize
    requires { place < 65536 }
    ensures { Slot t place result }
{
    if t == 0 {
        return At::NONE;
    }
    if t == 7 {
        return At::NONE;
    }
    place
}

// Where the next variable's value is to stand.
fn slot_end(rec: &[u16], known: usize, t: u64, place: usize) -> usize
    requires { (known ≤ length rec.now) × (known ≤ 20000) × (place < 65536) }
    ensures { SlotEnd (take known rec.now) t place result }
{
    if t == 0 {
        return place;
    }
    value_end(rec, known, t, place)
}

// The places of the variables whose values stand from start on; types has the type of the variable x at x.
pub fn slots_from(rec: &[u16], known: usize, types: &[u64], start: usize) -> Slots
    requires { (known ≤ length rec.now) × (known ≤ 20000) × (9 ≤ length types.now) × (start < 65536) }
    ensures { Slotted (take known rec.now) types.now start result.at.at result.end }
{
    let mut a = At::none();
    let mut place = start;
    for x in 1..9 {
        let t = type_of(types, x);
        a = a.with(x, slot(t, place));
        place = slot_end(rec, known, t, place);
    }
    Slots { at: a, end: place }
}
