// Words of memory that the caller lends: read as sizes, cleared and copied.
ghost use Rattle.std.specs.Prelude.{◌≡◌, ◌++◌, ◌+◌, ◌<◌, ◌≤◌, length, take, drop};
ghost use Rattle.meaning.specs.Report.{cleared};

// A word as a size: apart from the read, so that a caller need not prove that the word fits.
pub fn wide(word: u16) -> usize
    ensures { (result ≡ word) × (result < 65536) }
{
    usize::from(word)
}

// The first n words are 0, and the rest is as it was.
pub fn clear(words: &mut [u16], n: usize)
    requires { n ≤ length words.old }
    ensures { words.new ≡ cleared n words.old }
{
    words[..n].fill(0);
}

// The words of from stand in to from at on, and the rest is as it was.
pub fn copy_at(to: &mut [u16], at: usize, from: &[u16])
    requires { at + length from.now ≤ length to.old }
    ensures { to.new ≡ take at to.old ++ from.now ++ drop (at + length from.now) to.old }
{
    // not the library's copy, which is a call of C's memmove: the archive asks for memcpy and memset alone
    for (i, word) in from.iter().enumerate() {
        to[at + i] = *word;
    }
}
