// Words that are read, 0 past the end, so that each read is meaningful; and words of 16 bits, widened.
ghost use Rattle.std.specs.Prelude.{◌≡◌, ◌<◌, get_or};

pub fn word(words: &[u64], i: usize) -> u64
    ensures { result ≡ get_or words.now i 0 }
{
    words.get(i).copied().unwrap_or(0)
}

// Apart from the read, so that a caller need not prove that the word fits.
pub fn long(x: u16) -> u64
    ensures { (result ≡ x) × (result < 65536) }
{
    x as u64
}
