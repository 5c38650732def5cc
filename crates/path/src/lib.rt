// A path by value, handed through the walk; beside it the nodes and edges that it has used, as masks. Each function promises which
// path of the definitions the result is, or what the masks are of.
#![tactic(auto)]

mod base;
mod path;
mod tip;
mod used;
mod written;

pub use base::Base;
pub use path::Path;
pub use tip::{Change, End};
pub use used::Used;
pub use written::{write_beginning, write_path};
