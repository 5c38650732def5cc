// Sets in lent words, four words for each.
ghost use Rattle.std.specs.Prelude.{◌≡◌, ◌*◌, ◌+◌, ◌≤◌, length};
ghost use Rattle.bits.specs.Stores.{Stored, set_at};

use crate::Set;

pub fn set_at(words: &[u64], k: usize) -> Set
    requires { 4 * k + 4 ≤ length words.now }
    ensures { result.w ≡ set_at words.now k }
{
    let i = 4 * k;
    Set {
        w: [words[i], words[i + 1], words[i + 2], words[i + 3]],
    }
}

pub fn put_set(words: &mut [u64], k: usize, x: Set)
    requires { 4 * k + 4 ≤ length words.old }
    ensures { Stored k x.w words.old words.new }
{
    let i = 4 * k;
    words[i..i + 4].copy_from_slice(&x.w);
}
