// How lengths, starts and the first words of a record lie to the bookmark; the bookmark's own words as the beginning of a record.
#![tactic(auto)]

mod copied;
mod head;
mod side;
mod turn;

pub use copied::copy_bookmark;
pub use head::{Head, head_of};
pub use side::lies;
pub use turn::Turn;
