// Numbers of edges up to 65535, which stands for any greater one.
ghost use Rattle.std.specs.Prelude.{◌≤◌, ◌+◌, ◌*◌};
ghost use Rattle.bounds.specs.Numbers.{Capped, Greater, Smaller};

// Any number from 65535 on: not an Option, since the words of a table hold 65535 for no bound, and `Capped` cuts every sum at it.
pub const END: usize = 65535;

// The number, or END if it is greater.
fn capped(x: usize) -> usize
    ensures { Capped x result }
{
    if END <= x {
        return END;
    }
    x
}

// The greater of two.
pub fn greater(a: usize, b: usize) -> usize
    requires { (a ≤ 65535) × (b ≤ 65535) }
    ensures { Greater a b result }
{
    if a <= b { b } else { a }
}

// The smaller of two.
pub fn smaller(a: usize, b: usize) -> usize
    requires { (a ≤ 65535) × (b ≤ 65535) }
    ensures { Smaller a b result }
{
    if a <= b { a } else { b }
}

// The edges of two matches.
pub fn sum(a: usize, b: usize) -> usize
    requires { (a ≤ 65535) × (b ≤ 65535) }
    ensures { Capped (a + b) result }
{
    capped(a + b)
}

// The edges of n matches.
pub fn product(n: usize, a: usize) -> usize
    requires { (n ≤ 65535) × (a ≤ 65535) }
    ensures { Capped (n * a) result }
{
    capped(n * a)
}
