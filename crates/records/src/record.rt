// What every part of the engine knows about the words of a record.
ghost use Rattle.std.specs.Prelude.{◌≡◌, ◌+◌, ◌*◌, ◌<◌, get_or, length};

use words::wide;

// 01: the record type, for its associated constants and functions.
#[derive(Clone, Copy)]
pub struct Record;

impl Record {
    // The word that stands for Nothing.
    pub const NOTHING: usize = 65535;
    // How many words of the work buffer are used; no record is longer.
    pub const WORK: usize = 20000;

    // The words that a path of so many edges takes, with its count of edges.
    pub fn path_words(edges: usize) -> usize
        requires { edges < 65536 }
        ensures { result ≡ 2 * edges + 2 }
    {
        2 * edges + 2
    }

    // Where the node of a position of the record's own path stands.
    pub fn node_at(position: usize) -> usize
        requires { position < 65536 }
        ensures { result ≡ 2 * position + 1 }
    {
        2 * position + 1
    }

    // Where the edge from a position to the next stands.
    pub fn edge_at(position: usize) -> usize
        requires { position < 65536 }
        ensures { result ≡ 2 * position + 2 }
    {
        2 * position + 2
    }
}

// A word of the record, as a size.
pub fn word(rec: &[u16], i: usize) -> usize
    requires { i < length rec.now }
    ensures { (result ≡ get_or rec.now i 0) × (result < 65536) }
{
    wide(rec[i])
}
