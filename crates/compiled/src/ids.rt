// Node and edge numbers are types of their own: node 5 and edge 5 are different things (01).

// A node, by its place among the node rows.
#[derive(Clone, Copy, PartialEq, Eq)]
pub struct NodeId(pub u16);

// An edge, by its place among the edge rows.
#[derive(Clone, Copy, PartialEq, Eq)]
pub struct EdgeId(pub u16);

// What has labels and properties.
#[derive(Clone, Copy, PartialEq, Eq)]
pub enum Element {
    Node(NodeId),
    Edge(EdgeId),
}
