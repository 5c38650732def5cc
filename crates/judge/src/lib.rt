// Whether words are the record of an answer: the path that they tell, its values, the restrictor, and that no answer is shorter.
#![tactic(auto)]

mod matched;
mod nodes;
mod repeats;
mod restricted;
mod shorter;
mod verdict;

pub use verdict::judge;
