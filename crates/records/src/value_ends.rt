// Where a value ends in a record of which `known` words are known: its end is found by its type.
// A type is one number to base 8, its outermost constructor the lowest digit: 1 Node, 2 Edge, 3 Maybe, 4 Group.
ghost use Rattle.std.specs.Prelude.{◌≡◌, ◌+◌, ◌<◌, ◌≤◌, get_or, length, take};
ghost use Rattle.records.specs.Ends.{EndsAll, EndsAt, EndsGroup, EndsOne};

use crate::at::At;
use crate::record::{Record, word};

// The place after the value that begins at place, or NONE while that is not known.
#[cycle(group_end_value_end)]
pub fn value_end(rec: &[u16], known: usize, t: u64, place: usize) -> usize
    requires { (known ≤ length rec.now) × (known ≤ 20000) }
    ensures { EndsAt (take known rec.now) t place result }
{
    if known <= place {
        return At::NONE;
    }
    let head = t % 8;
    match head {
        1..=2 => place + 1,
        3 => {
            if word(rec, place) == Record::NOTHING {
                return place + 1;
            }
            value_end(rec, known, t / 8, place)
        }
        4 => group_end(rec, known, t / 8, place + 1, word(rec, place)),
        _ => At::NONE,
    }
}

// The place after so many factors, each a path and a value of type t.
#[cycle(group_end_value_end)]
fn group_end(rec: &[u16], known: usize, t: u64, from: usize, count: usize) -> usize
    requires { (known ≤ length rec.now) × (known ≤ 20000) × (from ≤ known) }
    ensures { EndsGroup (take known rec.now) t from count result }
{
    let mut place = from;
    for i in 0..count {
        if known <= place {
            return At::NONE;
        }
        let edges = word(rec, place);
        place = value_end(rec, known, t, place + Record::path_words(edges));
    }
    place
}

// The type of the variable x.
pub fn type_of(types: &[u64], x: usize) -> u64
    requires { x < length types.now }
    ensures { result ≡ get_or types.now x 0 }
{
    types[x]
}

// Where the value of x ends, by its type, of which 0 is none: most rows have few of the variables.
fn one_end(rec: &[u16], known: usize, types: &[u64], a: At, x: usize) -> usize
    requires { (known ≤ length rec.now) × (known ≤ 20000) × (x < 9) × (9 ≤ length types.now) }
    ensures { EndsOne (take known rec.now) types.now a.at x result }
{
    let t = type_of(types, x);
    if t == 0 {
        return At::NONE;
    }
    value_end(rec, known, t, a.of(x))
}

// Where the values that begin at the places of a end; types has the type of the variable x at x.
pub fn values_end(rec: &[u16], known: usize, types: &[u64], a: At) -> At
    requires { (known ≤ length rec.now) × (known ≤ 20000) × (9 ≤ length types.now) }
    ensures { EndsAll (take known rec.now) types.now a.at result.at }
{
    let mut b = At::none();
    for x in 1..9 {
        b = b.with(x, one_end(rec, known, types, a, x));
    }
    b
}
