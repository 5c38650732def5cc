// The members of a set in turn, rising.
ghost use Rattle.std.specs.Prelude.{◌≡◌};
ghost use Rattle.bits.specs.Members.{NextMember, members_left};

use crate::Set;

// Those from `from` on are still to come.
#[derive(Clone, Drop)]
pub struct Members {
    pub set: Set,
    pub from: usize,
}

impl Iterator for Members {
    type Item = usize;

    ghost next_gives = { NextMember };

    ghost remaining = { members_left };

    fn next(&mut self) -> Option<usize> {
        let k = self.set.member_from(self.from)?;
        self.from = k + 1;
        Some(k)
    }
}
