// The lines of a listing: a record on each, and the last one; or why it is refused.
ghost use Rattle.std.specs.Prelude.{◌≤◌, length};

use crate::record_ends::record_end;
use crate::text::Text;
use std::io;
use words::wide;

// The words parted by spaces, and the line's end.
fn put_record(rt: &impl Print, out: &mut Text, words: &[u16]) -> io::Result<()> {
    for (i, word) in words.iter().enumerate() {
        if 0 < i {
            out.put_byte(rt, b' ')?;
        }
        out.put_number(rt, wide(*word) as u64)?;
    }
    out.put_byte(rt, b'\n')
}

// Each record on a line.
fn put_records(rt: &impl Print, out: &mut Text, types: &[u16], words: &[u16]) -> io::Result<()> {
    // by hand: the step is not 1, it is the length of the record just read
    let mut at: usize = 0;
    while at < words.len() {
        let next = record_end(types, words, at);
        put_record(rt, out, &words[at..next])?;
        at = next;
    }
    Ok(())
}

// The records of a page of which some words are used.
pub fn put_page(
    rt: &impl Print,
    out: &mut Text,
    types: &[u16],
    page: &[u16],
    used: usize,
) -> io::Result<()>
    requires { used ≤ length page.now }
{
    put_records(rt, out, types, &page[0..used])
}

// The last line of a listing.
pub fn put_done(rt: &impl Print, out: &mut Text, count: u64) -> io::Result<()> {
    out.put_bytes(rt, b"done ")?;
    out.put_number(rt, count)?;
    out.put_byte(rt, b'\n')
}

// The line of a refused call.
pub fn put_refusal(rt: &impl Print, out: &mut Text, number: u64, row: u64) -> io::Result<()> {
    out.put_bytes(rt, b"refused ")?;
    out.put_number(rt, number)?;
    out.put_bytes(rt, b" row ")?;
    out.put_number(rt, row)?;
    out.put_byte(rt, b'\n')
}
