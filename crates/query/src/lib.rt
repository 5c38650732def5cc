// The check of a query's words (02, Q-1), 31, 32, 11 to 16 of each part and 33, and its types: the first cause that holds, the 72 words of
// the type area, and the look-ups of what is laid out.
#![tactic(auto)]

mod causes;
mod layout;
mod names;
mod patterns;
mod restrictors;
mod type_area;
mod typing;

pub use causes::{Refusal, check};
pub use layout::{Part, part_at, parts};
pub use restrictors::restrictors_fine;
pub use type_area::check_types;
pub use typing::type_code;
