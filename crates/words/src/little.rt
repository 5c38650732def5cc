// Little-endian numbers of 16 bits. A byte past the end counts as 0, so that each read is meaningful.
ghost use Rattle.std.specs.Prelude.{◌≡◌, ◌<◌, get_or};
ghost use Rattle.meaning.specs.Image.{number};
ghost use Rattle.words.specs.Size.{Size};

// The byte at a place, 0 past the end.
fn byte_at(bytes: &[u8], at: usize) -> u8
    ensures { result ≡ get_or bytes.now at 0 }
{
    bytes.get(at).copied().unwrap_or(0)
}

// 01: two bytes, low byte first.
pub fn number_at(bytes: &[u8], at: usize) -> u16
    ensures { result ≡ number bytes.now at }
{
    // where at + 1 would wrap there is no byte
    if bytes.len() <= at {
        return 0;
    }
    let low = byte_at(bytes, at);
    let high = byte_at(bytes, at + 1);
    u16::from_le_bytes([low, high])
}

// The number as a size, with the bound that sums of sizes need.
pub fn size_at(bytes: &[u8], at: usize) -> usize
    ensures { Size bytes.now at result }
{
    usize::from(number_at(bytes, at))
}
