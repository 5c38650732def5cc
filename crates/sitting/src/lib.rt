// 02, Q-3: a sitting, by value: the total of all records placed on pages since it was fresh; and the 4 lent bytes that hold it for C, low
// byte first.
#![tactic(auto)]

mod total;

pub use total::{Sitting, is_short};
