// How the first words of a record lie to the bookmark.
ghost use Rattle.std.specs.Prelude.{◌≤◌, length, take};
ghost use Rattle.bookmarks.specs.Turns.{Lies};

use crate::turn::{Turn, turn_at};
use words::wide;

// The first `end` of the words.
pub fn lies(bookmark: &[u16], words: &[u16], end: usize) -> Turn
    requires { end ≤ length words.now }
    ensures { Lies bookmark.now (take end words.now) result }
{
    for (i, w) in words[..end].iter().enumerate() {
        match turn_at(bookmark, i, wide(*w)) {
            Turn::On => {}
            turn => return turn,
        }
    }
    Turn::On
}
