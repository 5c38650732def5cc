// The numbers of edges of a match, by the table alone: the least and the greatest, and those that it can have.
#![tactic(auto)]

mod fewest;
mod greatest;
mod lengths;
mod numbers;
mod row_lengths;
mod sums;

pub use fewest::least;
pub use greatest::most;
pub use lengths::{fill_lengths, kept_lengths, lengths_of};
