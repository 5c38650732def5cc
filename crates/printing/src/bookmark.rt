// The bookmark of the next page: a copy of the last record printed.
ghost use Rattle.std.specs.Prelude.{◌≤◌, length};
ghost use Rattle.printing.specs.Sizes.{LastRecord, Marked};

use crate::record_ends::record_end;

// Where the last record begins.
fn last_record(types: &[u16], words: &[u16]) -> usize
    ensures { LastRecord types.now words.now result }
{
    // by hand: the step is not 1, it is the length of the record just read
    let mut last: usize = 0;
    let mut at: usize = 0;
    while at < words.len() {
        last = at;
        at = record_end(types, words, at);
    }
    last
}

// Copies the last record of a page, which is the next bookmark, and gives its length.
pub fn take_mark(mark: &mut [u16], page: &[u16], used: usize, types: &[u16]) -> usize
    requires { (used ≤ length page.now) × (used ≤ length mark.old) }
    ensures { Marked types.now page.now used mark.new result }
{
    let last = last_record(types, &page[0..used]);
    words::copy_at(mark, 0, &page[last..used]);
    used - last
}
