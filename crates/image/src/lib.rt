// The graph image: read and checked (1 to 7 of 01), and the cells of its rows, which `compiled` copies from an accepted one.
#![tactic(auto)]

mod cells;
mod directory;
mod faults;
mod lowest;
mod reader;
mod sections;

pub use cells::{edge_cell, label_cell, property_cell};
pub use lowest::Section;
pub use reader::{Refusal, read};
pub use sections::{Rows, Sections, sections_of};
