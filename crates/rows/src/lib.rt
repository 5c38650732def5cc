// The rows of a pattern table: their numbers, and the checks 12 and 13 of 01. What a row is read as is what its definition reads.
#![tactic(auto)]

mod naming;
mod numbers;
mod row;
mod uses;

pub use naming::loose;
pub use numbers::malformed;
pub use row::{Row, row_at};
