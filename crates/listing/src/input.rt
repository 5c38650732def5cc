// Standard input: image length in bytes, pattern length in words, restrictor, then image and pattern. Input that ends early
// counts as far as it goes: bytes of the head that are missing are 0, and half a word at the end is dropped. Input that cannot be
// read is an error, the one that the read gave.
ghost use Rattle.std.specs.Prelude.{◌≡◌, ℕ, ◌*◌, ◌<◌, ◌≤◌, min, length, take, slice_index, IfOk, OnErr};
ghost use Rattle.std.specs.Io.{ReadsAtMost};
ghost use Rattle.std.specs.Io.KnownBytes.{Consumes, IsAtEnd};
ghost use Rattle.meaning.specs.Image.{number};
ghost use Rattle.listing.specs.Words.{WordsRead};

use std::io;
use std::io::Read;

// Reads until the bytes are full or the input ends, and gives how many there were. Of a reader whose bytes are known they are the
// next ones, and where they are fewer than there is room for, the last.
pub fn read_full<R: Read>(input: &mut R, bytes: &mut [u8]) -> io::Result<usize>
    ensures within { ReadsAtMost result bytes.new }
    ensures next { IfOk result (λ n. Consumes (R.remaining input.old) (R.remaining input.new)
        (take n bytes.new)) }
    ensures end { IfOk result (λ n. n < length bytes.new → IsAtEnd (R.remaining input.new)) }
    ensures err { OnErr result (length bytes.new ≡ length bytes.old) }
{
    // by hand: the step is not 1, it is the number of bytes that came
    let mut done: usize = 0;
    while done < bytes.len() {
        let count = input.read(&mut bytes[done..])?;
        if count == 0 {
            return Ok(done);
        }
        done += count;
    }
    Ok(done)
}

// Reads n bytes, or as many as there is room for, and gives how many there were.
fn read<R: Read>(input: &mut R, bytes: &mut [u8], n: usize) -> io::Result<usize>
    ensures within { IfOk result (λ count. count ≤ min n (length bytes.new)) }
    ensures next { IfOk result (λ count. Consumes (R.remaining input.old) (R.remaining input.new)
        (take count bytes.new)) }
    ensures end { IfOk result (λ count. count < min n (length bytes.new) →
        IsAtEnd (R.remaining input.new)) }
    ensures err { OnErr result (length bytes.new ≡ length bytes.old) }
{
    let most = n.min(bytes.len());
    read_full(input, &mut bytes[..most])
}

// The third number of the head.
pub fn restrictor(head: &[u8; 6]) -> u16 {
    words::number_at(head, 4)
}

// As many bytes as the head says, or as there are.
pub fn read_image<R: Read>(
    input: &mut R,
    head: &[u8; 6],
    image: &mut [u8; 65536],
) -> io::Result<usize>
    ensures within { ReadsAtMost result image.new }
    ensures most { IfOk result (λ n. n ≤ number head.now 0) }
    ensures next { IfOk result (λ n. Consumes (R.remaining input.old) (R.remaining input.new)
        (take n image.new)) }
    ensures end { IfOk result (λ n. n < number head.now 0 → IsAtEnd (R.remaining input.new)) }
    ensures err { OnErr result (length image.new ≡ length image.old) }
{
    read(input, image, words::size_at(head, 0))
}

// The first words that the bytes hold.
fn take_words(words: &mut [u16], bytes: &[u8], count: usize)
    requires { count ≤ length words.old }
    ensures within { count ≤ length words.new }
    ensures each { (i : ℕ) → i < count → slice_index words.new i ≡ number bytes.now (2 * i) }
{
    for i in 0..count {
        words[i] = words::number_at(bytes, 2 * i);
    }
}

// Of a pattern over 321 words the first 321 are used, which is one word more than any table has.
pub fn read_pattern<R: Read>(
    input: &mut R,
    head: &[u8; 6],
    pattern: &mut [u16; 321],
) -> io::Result<usize>
    ensures within { ReadsAtMost result pattern.new }
    ensures most { IfOk result (λ n. n ≤ min (number head.now 2) 321) }
    ensures next { IfOk result (WordsRead (R.remaining input.old) (R.remaining input.new) pattern.new
        (min (number head.now 2) 321)) }
    ensures err { OnErr result (pattern.new ≡ pattern.old) }
{
    let mut bytes = [0u8; 642];
    let most = words::size_at(head, 2).min(321);
    let count = read(input, &mut bytes, 2 * most)? / 2;
    take_words(pattern, &bytes, count);
    Ok(count)
}
