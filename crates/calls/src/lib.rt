// What a call is lent, compiled, and asked of the lister or the judge: of those of one part, or of those of a join. Nothing refuses it: the
// image and the query were accepted before.
#![tactic(auto)]

mod compiling;
mod filling;
mod judging;

pub use filling::fill_page;
pub use judging::judge;
