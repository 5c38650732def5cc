// The bookmark's first two words, a length and a start, looked at once in a call.
ghost use Rattle.bookmarks.specs.Heads.{HeadIs, LengthFrom, StartTurn};

use crate::turn::{Turn, turn_to};
use words::wide;

// Those of the two that the bookmark has.
#[derive(Clone, Copy)]
pub struct Head {
    pub n: Option<usize>,
    pub u: Option<usize>,
}

pub fn head_of(bookmark: &[u16]) -> Head
    ensures { HeadIs bookmark.now result }
{
    Head {
        n: bookmark.get(0).map(|w| wide(*w)),
        u: bookmark.get(1).map(|w| wide(*w)),
    }
}

impl Head {
    // The least of the lengths from `first` on that does not lie behind the bookmark.
    pub fn length_from(self, first: usize) -> usize
        ensures { LengthFrom self first result }
    {
        match self.n {
            Some(n) if first < n => n,
            _ => first,
        }
    }

    // How the records with n edges from u lie to the bookmark.
    pub fn turn(self, n: usize, u: usize) -> Turn
        ensures { StartTurn self n u result }
    {
        match turn_to(self.n, n) {
            Turn::On => turn_to(self.u, u),
            turn => turn,
        }
    }
}
