// Sets of numbers below 256, by value, as masks over four words; and masks of one word. Each function promises what the set of the
// result has, as a function of the sets of its arguments.
#![tactic(auto)]

mod members;
mod stored;

ghost use Rattle.std.specs.Prelude.{◌≡◌, ◌*◌, ◌<◌};
ghost use Rattle.bits.specs.Sets.{bit, set_of, none, only, below, unite, meet, minus, up, insert, remove, Least, LeastMember, Empty, ByWords, Part};

pub use members::Members;
pub use stored::{put_set, set_at};

// 01: used nodes and edges as masks over u64 words. Number k is bit k % 64 of word k / 64.
#[derive(Clone, Copy)]
pub struct Set {
    pub w: [u64; 4],
}

impl Set {
    // One past the greatest number that a set can hold.
    pub const END: usize = 256;

    // The set of nothing.
    pub fn empty() -> Self
        ensures { set_of result.w ≡ none }
    {
        Set { w: [0; 4] }
    }

    // The set of k alone; of nothing where k is not below 256.
    pub fn single(k: usize) -> Self
        ensures { set_of result.w ≡ only 256 k }
    {
        Set {
            w: [part(k, 0), part(k, 1), part(k, 2), part(k, 3)],
        }
    }

    // All numbers below n that a set can hold.
    pub fn below(n: usize) -> Self
        ensures { set_of result.w ≡ below 256 n }
    {
        Set {
            w: [
                low(n),
                low(n.saturating_sub(64)),
                low(n.saturating_sub(128)),
                low(n.saturating_sub(192)),
            ],
        }
    }

    // Whether k is in the set.
    pub fn has(self, k: usize) -> bool
        ensures { result ≡ set_of self.w k }
    {
        k < Set::END && self.w[k / 64] >> (k % 64) & 1 == 1
    }

    // The set with k, where k is below 256.
    pub fn with(self, k: usize) -> Self
        ensures { set_of result.w ≡ insert (set_of self.w) k }
    {
        self.union(Set::single(k))
    }

    // The set without k.
    pub fn without(self, k: usize) -> Self
        ensures { set_of result.w ≡ remove (set_of self.w) k }
    {
        self.minus(Set::single(k))
    }

    // Word by word.
    fn by_words<F: Fn(u64, u64) -> u64>(self, o: Set, f: F) -> Self
        requires { F.IsAlwaysCallable f }
        ensures { ByWords (F.post f) self.w o.w result.w }
    {
        Set {
            w: [
                f(self.w[0], o.w[0]),
                f(self.w[1], o.w[1]),
                f(self.w[2], o.w[2]),
                f(self.w[3], o.w[3]),
            ],
        }
    }

    // What is in one of the two.
    pub fn union(self, o: Set) -> Self
        ensures { set_of result.w ≡ unite (set_of self.w) (set_of o.w) }
    {
        self.by_words(o, |x, y| x | y)
    }

    // What is in both.
    pub fn meet(self, o: Set) -> Self
        ensures { set_of result.w ≡ meet (set_of self.w) (set_of o.w) }
    {
        self.by_words(o, |x, y| x & y)
    }

    // What is in this set and not in the other.
    pub fn minus(self, o: Set) -> Self
        ensures { set_of result.w ≡ minus (set_of self.w) (set_of o.w) }
    {
        self.by_words(o, |x, y| x & !y)
    }

    // Each member k becomes k + 1; 255 falls out.
    pub fn shift_up(self) -> Self
        ensures { set_of result.w ≡ up (set_of self.w) }
    {
        Set {
            w: [
                self.w[0] << 1,
                self.w[1] << 1 | self.w[0] >> 63,
                self.w[2] << 1 | self.w[1] >> 63,
                self.w[3] << 1 | self.w[2] >> 63,
            ],
        }
    }

    // Whether nothing is in the set.
    pub fn is_empty(self) -> bool
        ensures { Empty (set_of self.w) result }
    {
        // one test in place of four: every step of a search asks it
        self.w[0] | self.w[1] | self.w[2] | self.w[3] == 0
    }

    // The least member at or after from, or END.
    pub fn least(self, from: usize) -> usize
        ensures { Least (set_of self.w) 256 from result }
    {
        self.member_from(from).unwrap_or(Set::END)
    }

    // The least member at or after from. By reference: an iterator asks it of one set again and again.
    fn member_from(&self, from: usize) -> Option<usize>
        ensures { LeastMember (set_of self.now.w) from result }
    {
        if Set::END <= from {
            return None;
        }
        let i = from / 64;
        let x = self.w[i] >> (from % 64);
        if x != 0 {
            return Some(from + lowest(x));
        }
        self.member_in(i + 1)
    }

    // The least member in the words from n on.
    fn member_in(&self, n: usize) -> Option<usize>
        ensures { LeastMember (set_of self.now.w) (64 * n) result }
    {
        for i in n..4 {
            let x = self.w[i];
            if x != 0 {
                return Some(64 * i + lowest(x));
            }
        }
        None
    }

    // The members in turn, rising.
    pub fn iter(self) -> Members
        ensures { (result.set.w ≡ self.w) × (result.from ≡ 0) }
    {
        Members { set: self, from: 0 }
    }
}

// The word i of the set of k alone. Made in a register: a set whose word is stored alone stalls where the four are read at once.
fn part(k: usize, i: usize) -> u64
    requires { i < 4 }
    ensures { Part (only 256 k) i result }
{
    if k / 64 == i { one(k % 64) } else { 0 }
}

// The bit k of a mask of one word.
pub fn bit(m: u64, k: usize) -> bool
    ensures { result ≡ bit m k }
{
    k < 64 && m >> k & 1 == 1
}

// The mask of k alone.
pub fn one(k: usize) -> u64
    ensures { bit result ≡ only 64 k }
{
    if k < 64 { 1 << k } else { 0 }
}

// The mask of the numbers below n.
pub fn low(n: usize) -> u64
    ensures { bit result ≡ below 64 n }
{
    if n < 64 { (1 << n) - 1 } else { !0 }
}

// What is in one of two masks: the operator itself has no contract about single bits.
pub fn or(a: u64, b: u64) -> u64
    ensures { bit result ≡ unite (bit a) (bit b) }
{
    a | b
}

// The mask without k.
pub fn clear(m: u64, k: usize) -> u64
    ensures { bit result ≡ remove (bit m) k }
{
    m & !one(k)
}

// The least number of a mask, or 64.
pub fn lowest(m: u64) -> usize
    ensures { Least (bit m) 64 0 result }
{
    u64::trailing_zeros(m) as usize
}
