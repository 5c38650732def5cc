// The text of a listing, as 01 gives it under 'Examples': filled page by page and written to standard output. Promised is that the pages
// are those of a host's run, which hold the full listing; the text itself is tested.
#![tactic(auto)]

mod bookmark;
mod lines;
mod one_part;
mod pages;
mod places;
mod record_ends;
mod report;
mod text;
mod types;

pub use pages::print_listing;
pub use text::print_text;
