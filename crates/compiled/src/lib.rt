// What a call reads, compiled once into lent words: `graph` has the graph of an accepted image, `plan` the table of an accepted pattern
// and its restrictor. The layout of both is known here alone; everything else asks these functions.
#![tactic(auto)]

mod copy;
mod derived;
mod fill;
mod find;
mod ids;
mod look;
mod part;
mod word;

pub use derived::{
    Fit, GRAPH_WORDS, PLAN_WORDS, leaving, lengths, onward, put_leaving, put_lengths, put_onward,
    put_rows_of, put_watched, rows_of, types_at, variables, watched,
};
pub use fill::{fill_graph, fill_part};
pub use ids::{EdgeId, Element, NodeId};
pub use look::{
    edges, first_end, has_label, is_directed, is_labelled, nodes, property, second_end,
};
pub use part::{base_of, is_shortest, row_at, rows};
