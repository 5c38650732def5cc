// The known words of a record, as the matcher's model sees them: where values stand, where they end, and what they agree with. Each
// function equals one of the model, on the views that its places are of.
#![tactic(auto)]

mod at;
mod factors;
mod given;
mod other_variables;
mod pending;
mod record;
mod slots;
mod value_ends;

pub use at::{At, agrees, all_fit, first_known, frontier, moved};
pub use factors::{count_fits, factor_fits, inside};
pub use given::Given;
pub use other_variables::{others_frontier, others_nothing};
pub use pending::next_word;
pub use record::{Record, word};
pub use slots::{Slots, slots_from};
pub use value_ends::{value_end, values_end};
