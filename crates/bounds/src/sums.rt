// Sets of numbers of edges up to 255: the sums of their members. Greater sums fall out.
ghost use Rattle.std.specs.Prelude.{◌<◌, ◌≤◌};
ghost use Rattle.bits.specs.Sets.{set_of};
ghost use Rattle.bounds.specs.Sums.{AllFrom, Carried, Closed, Multiples, Raised, Sums};

use bits::Set;

// A word moved up by b bits, with the bits that the word below it loses.
fn carried(word: u64, below: u64, b: usize) -> u64
    requires { b < 64 }
    ensures { Carried word below b result }
{
    word << b | below >> (63 - b) >> 1
}

// Each member k becomes k + n.
fn raised(s: Set, n: usize) -> Set
    requires { n < 256 }
    ensures { Raised (set_of s.w) n (set_of result.w) }
{
    let w = [0, 0, 0, 0, s.w[0], s.w[1], s.w[2], s.w[3]];
    let i = 4 - n / 64;
    let b = n % 64;
    Set {
        w: [
            carried(w[i], w[i - 1], b),
            carried(w[i + 1], w[i], b),
            carried(w[i + 2], w[i + 1], b),
            carried(w[i + 3], w[i + 2], b),
        ],
    }
}

// All numbers from n on.
fn all_from(n: usize) -> Set
    ensures { AllFrom n (set_of result.w) }
{
    let all = Set::below(Set::END);
    let less = Set::below(n);
    all.minus(less)
}

// Whether it has all numbers from its least on.
fn is_tail(s: Set) -> bool {
    let all = all_from(s.least(0));
    all.minus(s).is_empty()
}

// Whether it has no second member.
fn is_single(s: Set) -> bool {
    s.least(s.least(0) + 1) == Set::END
}

// The sums of a member of each, those of `few` in turn.
fn sums_each(few: Set, many: Set) -> Set
    ensures { Sums (set_of few.w) (set_of many.w) (set_of result.w) }
{
    let mut r = Set::empty();
    for k in few.iter() {
        let more = raised(many, k);
        r = r.union(more);
    }
    r
}

// The sums of a member of each, in as few steps as are easily found.
pub fn sums(a: Set, b: Set) -> Set
    ensures { Sums (set_of a.w) (set_of b.w) (set_of result.w) }
{
    if is_single(a) {
        return sums_each(a, b);
    }
    if is_tail(a) | is_tail(b) {
        return all_from(a.least(0) + b.least(0));
    }
    sums_each(b, a)
}

// The sums of n members.
pub fn multiples(s: Set, n: usize) -> Set
    ensures { Multiples (set_of s.w) n (set_of result.w) }
{
    if n == 0 {
        return Set::single(0);
    }
    if n == 1 {
        return s;
    }
    let half = multiples(s, n / 2);
    let even = sums(half, half);
    if n % 2 == 0 {
        return even;
    }
    sums(even, s)
}

// The sums of a member of s and any number of steps; at once where a step is 1.
pub fn closed(s: Set, steps: Set) -> Set
    ensures { Closed (set_of s.w) (set_of steps.w) (set_of result.w) }
{
    if steps.has(1) {
        return all_from(s.least(0));
    }
    let mut r = s;
    // by hand: the set that is walked grows on the way
    let mut k = r.least(0);
    while k < Set::END {
        let next = k + 1;
        let more = raised(steps, k);
        r = r.union(more);
        k = r.least(next);
    }
    r
}
