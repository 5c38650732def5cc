// Whether words are a record of a join: its paths, its values, its named paths, and for each part that its own words are a record of it.
#![tactic(auto)]

mod joint_values;
mod named;
mod own;
mod path_ends;
mod verdict;

pub use verdict::judge;
