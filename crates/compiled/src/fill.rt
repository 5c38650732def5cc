// The words filled from what a call is lent.
ghost use Rattle.std.specs.Prelude.{◌≡◌, ◌≤◌, length};
ghost use Rattle.std.proofs.Math.Option.{none};
ghost use Rattle.meaning.specs.Table.{pattern_fault};
ghost use Rattle.image.specs.Sections.{Checked};
ghost use Rattle.compiled.specs.Copies.{EdgeWord, GraphFilled, HeadFilled, LabelWord, PartFilled, PropertyWord, Put, RowsFilled, TableWord};
ghost use Rattle.compiled.specs.Derived.{graph_words, plan_words};

use crate::copy::{edge_word, label_word, property_word};
use crate::derived::{ROWS, TYPES};
use crate::look::{EDGES, LABELS, PROPERTIES};
use crate::part::TABLE;
use crate::word::long;
use image::Sections;
use table::{fill_types, fill_variables};

fn fill_edges(image: &[u8], s: Sections, graph: &mut [u64])
    requires { Checked image.now s × (length graph.old ≡ graph_words) }
    ensures { Put 8 (EdgeWord image.now) s.edges.count graph.old graph.new }
{
    for i in 0..s.edges.count {
        graph[EDGES + i] = edge_word(image, s, i);
    }
}

fn fill_labels(image: &[u8], s: Sections, graph: &mut [u64])
    requires { Checked image.now s × (length graph.old ≡ graph_words) }
    ensures { Put 208 (LabelWord image.now) s.labels.count graph.old graph.new }
{
    for i in 0..s.labels.count {
        graph[LABELS + i] = label_word(image, s, i);
    }
}

fn fill_properties(image: &[u8], s: Sections, graph: &mut [u64])
    requires { Checked image.now s × (length graph.old ≡ graph_words) }
    ensures { Put 1008 (PropertyWord image.now) s.properties.count graph.old graph.new }
{
    for i in 0..s.properties.count {
        graph[PROPERTIES + i] = property_word(image, s, i);
    }
}

// The graph of an accepted image.
pub fn fill_graph(image: &[u8], s: Sections, graph: &mut [u64])
    requires { Checked image.now s × (length graph.old ≡ graph_words) }
    ensures { GraphFilled image.now graph.new }
{
    graph[0] = s.nodes.count as u64;
    graph[1] = s.edges.count as u64;
    graph[2] = s.labels.count as u64;
    graph[3] = s.properties.count as u64;
    fill_edges(image, s, graph);
    fill_labels(image, s, graph);
    fill_properties(image, s, graph);
}

// The words of a table, each in a word of the plan.
fn fill_table(pattern: &[u16], plan: &mut [u64])
    requires { (length pattern.now ≤ 320) × (328 ≤ length plan.old) }
    ensures { Put 8 (TableWord pattern.now) (length pattern.now) plan.old plan.new }
{
    for (i, x) in pattern.iter().enumerate() {
        plan[TABLE + i] = long(*x);
    }
}

// The table and the restrictor of a part.
fn fill_head(pattern: &[u16], restrictor: u64, plan: &mut [u64])
    requires { (pattern_fault pattern.now ≡ none) × (length plan.old ≡ plan_words) }
    ensures { HeadFilled pattern.now restrictor plan.new }
{
    plan[0] = pattern.len() as u64;
    plan[1] = restrictor;
    fill_table(pattern, plan);
}

// The variables and the types of every row.
fn fill_rows(pattern: &[u16], words: &mut [u64])
    requires { (pattern_fault pattern.now ≡ none) × (576 ≤ length words.old) }
    ensures { RowsFilled pattern.now words.new }
{
    fill_variables(pattern, words);
    fill_types(pattern, &mut words[TYPES..]);
}

// The part: table, restrictor, and what the table says of its rows.
pub fn fill_part(pattern: &[u16], restrictor: u64, plan: &mut [u64])
    requires { (pattern_fault pattern.now ≡ none) × (length plan.old ≡ plan_words) }
    ensures { PartFilled pattern.now restrictor plan.new }
{
    fill_head(pattern, restrictor, plan);
    fill_rows(pattern, &mut plan[ROWS..]);
}
