// The property of a variable's element, and equality of two.
// A record may hold any word for a variable, also one that is no node or edge. The graph of an image answers for every
// number, and so does the code, by the same look-up: the two agree with no bound on the words, and callers need none.
ghost use Rattle.std.specs.Prelude.{◌≡◌};
ghost use Rattle.std.proofs.Math.Option.{some};
ghost use Rattle.compiled.specs.Sound.{Lawful};
ghost use Rattle.matcher.specs.Conditions.{equality_truths, property_at_lem};
ghost use Rattle.compiled.specs.Words.{graph_in};
ghost use Rattle.conditions.specs.Bound.{binding_of};
ghost use Rattle.conditions.specs.Property.{known_of};
ghost use Rattle.conditions.specs.Truths.{truths_of};

use crate::truth::{Truths, any_truth, decided, unknown};
use compiled::Element;

// A property's value as far as it is known: that its element is open and that it is absent have names here, as `Option<Option<u64>>`
// would not give them.
#[derive(Clone, Copy)]
pub enum Property {
    Open,
    Absent,
    Found(u64),
}

// The property of an element that may not be known.
fn property_at(graph: &[u64], x: Option<Element>, key: u16) -> Property
    requires { Lawful graph.now }
    ensures { known_of result ≡ property_at_lem (graph_in graph.now) (binding_of x) key }
{
    match x {
        None => Property::Open,
        Some(e) => match compiled::property(graph, e, key) {
            Some(w) => Property::Found(w),
            None => Property::Absent,
        },
    }
}

// With a value.
fn equals_value(a: Property, w: u64) -> Truths
    ensures { truths_of result ≡ equality_truths (known_of a) (some (some w)) }
{
    match a {
        Property::Open => any_truth(),
        Property::Absent => unknown(),
        Property::Found(v) => decided(v == w),
    }
}

// 02, Q-2: an equality with an absent side is unknown, whatever the other side is.
fn equal(a: Property, b: Property) -> Truths
    ensures { truths_of result ≡ equality_truths (known_of a) (known_of b) }
{
    match b {
        Property::Found(w) => equals_value(a, w),
        Property::Absent => unknown(),
        Property::Open => match a {
            Property::Absent => unknown(),
            _ => any_truth(),
        },
    }
}

// Kind 16.
pub fn equal_constant(graph: &[u64], x: Option<Element>, key: u16, w: u64) -> Truths
    requires { Lawful graph.now }
    ensures { truths_of result ≡ equality_truths (property_at_lem (graph_in graph.now) (binding_of x) key) (some (some w)) }
{
    equals_value(property_at(graph, x, key), w)
}

// Kind 17.
pub fn equal_properties(
    graph: &[u64],
    x: Option<Element>,
    key: u16,
    y: Option<Element>,
    other: u16,
) -> Truths
    requires { Lawful graph.now }
    ensures { truths_of result ≡ equality_truths (property_at_lem (graph_in graph.now) (binding_of x) key) (property_at_lem (graph_in graph.now) (binding_of y) other) }
{
    let a = property_at(graph, x, key);
    let b = property_at(graph, y, other);
    equal(a, b)
}
