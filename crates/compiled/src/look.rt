// Every question to the compiled graph. Words 0 to 3 have the numbers of nodes, edges, labels and properties; then come a word for each
// edge, and for each label and each property a word, rising by element and name.
ghost use Rattle.std.specs.Prelude.{◌≡◌, ◌+◌, ◌*◌};
ghost use Rattle.meaning.specs.Graph.{labelled};
ghost use Rattle.meaning.specs.Table.{unless};
ghost use Rattle.compiled.specs.Elements.{element_of};
ghost use Rattle.compiled.specs.Words.{edge_in_lem, edges_in_lem, graph_in, labels_in, nodes_in_lem, number_in, properties_in};
ghost use Rattle.compiled.specs.Sound.{Lawful};
ghost use Rattle.compiled.specs.Values.{value_of};

use crate::find::{UNIT, find};
use crate::ids::{EdgeId, Element, NodeId};
use crate::word::{long, word};

// Where the words of the edges, of the labels and of the properties begin.
pub const EDGES: usize = 8;

pub const LABELS: usize = 208;

pub const PROPERTIES: usize = 1008;

pub fn nodes(graph: &[u64]) -> usize
    ensures { result ≡ nodes_in_lem graph.now }
{
    word(graph, 0) as usize
}

pub fn edges(graph: &[u64]) -> usize
    ensures { result ≡ edges_in_lem graph.now }
{
    word(graph, 1) as usize
}

fn labels(graph: &[u64]) -> usize
    ensures { result ≡ labels_in graph.now }
{
    word(graph, 2) as usize
}

fn properties(graph: &[u64]) -> usize
    ensures { result ≡ properties_in graph.now }
{
    word(graph, 3) as usize
}

// The first end of an edge.
pub fn first_end(graph: &[u64], e: EdgeId) -> NodeId
    ensures { result.0 ≡ (edge_in_lem graph.now e.0).first }
{
    let w = word(graph, EDGES + e.0 as usize);
    NodeId((w % 65536) as u16)
}

// The second end of an edge.
pub fn second_end(graph: &[u64], e: EdgeId) -> NodeId
    ensures { result.0 ≡ (edge_in_lem graph.now e.0).second }
{
    let w = word(graph, EDGES + e.0 as usize);
    NodeId((w / 65536 % 65536) as u16)
}

// Whether the edge leads from its first end to its second only.
pub fn is_directed(graph: &[u64], e: EdgeId) -> bool
    ensures { result ≡ (edge_in_lem graph.now e.0).directed }
{
    let w = word(graph, EDGES + e.0 as usize);
    w / 4294967296 == 1
}

// The pair of an element and a label or a key. Nothing else turns a node or an edge into a number.
fn pair_of(graph: &[u64], x: Element, name: u16) -> u64
    requires { Lawful graph.now }
    ensures { result ≡ number_in graph.now (element_of x) * 65536 + name }
{
    match x {
        Element::Node(n) => long(n.0) * 65536 + long(name),
        Element::Edge(e) => (nodes(graph) as u64 + long(e.0)) * 65536 + long(name),
    }
}

// Whether the element has the label: by halving, since the words rise.
pub fn has_label(graph: &[u64], x: Element, label: u16) -> bool
    requires { Lawful graph.now }
    ensures { result ≡ (graph_in graph.now).label (element_of x) label }
{
    let pair = pair_of(graph, x, label);
    find(graph, LABELS, labels(graph), pair).is_some()
}

// The element has the label, where one is asked for: 0 asks for none.
pub fn is_labelled(graph: &[u64], x: Element, label: u16) -> bool
    requires { Lawful graph.now }
    ensures { result ≡ labelled (graph_in graph.now) (element_of x) (unless 0 label) }
{
    label == 0 || has_label(graph, x, label)
}

// The property of the element under the key, found as a label is: a word that only equality is asked of.
pub fn property(graph: &[u64], x: Element, key: u16) -> Option<u64>
    requires { Lawful graph.now }
    ensures { value_of result ≡ (graph_in graph.now).property (element_of x) key }
{
    let pair = pair_of(graph, x, key);
    let w = find(graph, PROPERTIES, properties(graph), pair)?;
    Some(w % UNIT)
}
