// The elements of the variables, from the known words of a record.
ghost use Rattle.std.specs.Prelude.{◌≡◌, ◌<◌, ◌≤◌, get_or, length, take};
ghost use Rattle.conditions.specs.Known.{BindsAt, BindsWord, BindsWords};

use crate::bound::Bound;
use compiled::{EdgeId, Element, NodeId};

// The numbers of the two types whose values are one element.
const NODE: u64 = 1;

// Edge.
const EDGE: u64 = 2;

// The element that a word is, for a variable of the type.
fn binding_of(code: u64, w: u16) -> Option<Element>
    ensures { BindsWord code w result }
{
    match code {
        NODE => Some(Element::Node(NodeId(w))),
        EDGE => Some(Element::Edge(EdgeId(w))),
        _ => None,
    }
}

// The element of a variable of the type whose value begins at place.
fn binding_at(rec: &[u16], known: usize, code: u64, place: usize) -> Option<Element>
    requires { known ≤ length rec.now }
    ensures { BindsAt (take known rec.now) code place result }
{
    if place < known {
        binding_of(code, rec[place])
    } else {
        None
    }
}

// Of the variable x, types has the type and places the place of the value at x.
pub fn bound_by(rec: &[u16], known: usize, types: &[u64], places: [u16; 9]) -> Bound
    requires { (known ≤ length rec.now) × (9 ≤ length types.now) }
    ensures { BindsWords (take known rec.now) types.now places result }
{
    let mut b = Bound::unknown();
    for x in 1..9 {
        b = b.with(x, binding_at(rec, known, types[x], places[x] as usize));
    }
    b
}
