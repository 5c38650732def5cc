// Numbers in bytes, the report of eight numbers, and words that are read, cleared and copied. Each promise is an equation with the
// memory afterwards, what is left untouched included.
#![tactic(auto)]

mod lent;
mod little;
mod refusal;
mod report;

pub use lent::{clear, copy_at, wide};
pub use little::{number_at, size_at};
pub use refusal::{Refused, report_outcome};
pub use report::write_report;
