// Places in words of which nothing is known: no place is past the end, and a word past the end is 0.
ghost use Rattle.std.specs.Prelude.{◌≡◌, ◌+◌, ◌<◌, ◌≤◌, min, length, slice_index};

use words::wide;

// The word at a place, 0 past the end.
pub fn word_at(words: &[u16], at: usize) -> usize
    ensures { (result ≡ slice_index words.now at) × (result < 65536) }
{
    wide(words.get(at).copied().unwrap_or(0))
}

// The place n words on, or the end where there are fewer.
pub fn forward(words: &[u16], at: usize, n: usize) -> usize
    ensures { result ≡ min (at + n) (length words.now) }
{
    at.saturating_add(n).min(words.len())
}
