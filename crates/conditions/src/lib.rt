// Conditions of a pattern table while some elements are not known yet: the truth values that each can still have, as the model has it; with
// every element known it is the condition's own.
#![tactic(auto)]

mod bound;
mod evaluate;
mod known;
mod property;
mod truth;

pub use bound::Bound;
pub use evaluate::condition;
pub use known::bound_by;
pub use truth::{Truths, may_hold};
