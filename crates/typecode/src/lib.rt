// A type as one number, its outermost constructor in the lowest digit to base 8; 0 not used, 7 no type. Each function promises the
// number of the type that a rule of Figure 2 of 000 gives.
#![tactic(auto)]

mod digits;

ghost use Rattle.std.specs.Prelude.{◌<◌, ◌+◌, ◌*◌};
ghost use Rattle.typecode.specs.Codes.{Opts, BothTyped, Unites, Joins, Repeats, Singles, Names};

pub use digits::put_type;

// A type's numbers, 1 to 4, are those that 01 reports.
pub const NODE: u64 = 1;

// Edge.
pub const EDGE: u64 = 2;

// Maybe of.
pub const MAYBE: u64 = 3;

// Group of.
pub const GROUP: u64 = 4;

// No type: a variable whose parts do not agree.
pub const CLASH: u64 = 7;

// Maybe of Maybe is never formed.
fn maybe(a: u64) -> u64
    requires { a < 262144 }
    ensures { Opts a result }
{
    if a % 8 == MAYBE { a } else { 8 * a + MAYBE }
}

// A variable that both parts of a union type.
fn both(a: u64, b: u64) -> u64
    requires { (a < 262144) × (b < 262144) }
    ensures { BothTyped a b result }
{
    if a == b {
        return a;
    }
    if b == 8 * a + MAYBE {
        return 8 * a + MAYBE;
    }
    if a == 8 * b + MAYBE {
        return a;
    }
    CLASH
}

// 000, Figure 2: a variable in one part only becomes Maybe.
pub fn union_type(a: u64, b: u64) -> u64
    requires { (a < 262144) × (b < 262144) }
    ensures { Unites a b result }
{
    // two tests: of one by `||` the proof does not learn which of both holds
    if a == CLASH {
        return CLASH;
    }
    if b == CLASH {
        return CLASH;
    }
    if a == 0 {
        if b == 0 {
            return 0;
        }
        return maybe(b);
    }
    if b == 0 {
        return maybe(a);
    }
    both(a, b)
}

// A variable of a concatenation: in both parts it is Node in both or Edge in both.
pub fn joined_type(a: u64, b: u64) -> u64
    ensures { Joins a b result }
{
    if a == 0 {
        return b;
    }
    if a == CLASH {
        return CLASH;
    }
    if b == 0 {
        return a;
    }
    // one test after the other: of `a == b && is_single(a)` the proof did not close where it fails
    if a == b {
        if a == NODE {
            return a;
        }
        if a == EDGE {
            return a;
        }
    }
    CLASH
}

// A repetition makes a type into Group of it. Early returns: a `match` on constants is no shorter.
pub fn repeated_type(a: u64) -> u64
    requires { a < 262144 }
    ensures { Repeats a result }
{
    if a == 0 {
        return 0;
    }
    if a == CLASH {
        return CLASH;
    }
    8 * a + GROUP
}

// Node or Edge.
pub fn is_single(a: u64) -> bool
    ensures { Singles a result }
{
    a == NODE || a == EDGE
}

// The type that a node or an edge with the variable y gives to x.
pub fn named_type(y: usize, x: usize, a: u64) -> u64
    ensures { Names y x a result }
{
    if y == 0 {
        return 0;
    }
    if y == x { a } else { 0 }
}
