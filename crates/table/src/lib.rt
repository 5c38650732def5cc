// The check of a pattern table, 11 to 16 of 01, the first cause that holds with the lowest row; and the variables and types of its rows.
#![tactic(auto)]

mod causes;
mod lowest;
mod repetition;
mod typing;
mod variables;

pub use causes::{Refusal, check};
pub use lowest::Fault;
pub use variables::{fill_types, fill_variables, row_type, row_variables};
