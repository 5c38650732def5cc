// The fault of a row, section by section. Of two rows out of order the later is faulty.
ghost use Rattle.std.specs.Prelude.{◌≡◌, ◌<◌};
ghost use Rattle.meaning.specs.Image.{pair_less_lem, bad_node_lem, bad_edge_lem, bad_label_lem, bad_property_lem};
ghost use Rattle.image.specs.Sections.{Laid};

use crate::cells::{edge_cell, label_cell, node_cell, property_cell};
use crate::sections::Sections;

// 4: the outer number does not rise.
pub fn bad_node(image: &[u8], s: Sections, i: usize) -> bool
    requires laid { Laid image.now s }
    requires i_bound { i < 65536 }
    ensures { result ≡ bad_node_lem image.now i }
{
    if i == 0 {
        return false;
    }
    node_cell(image, s, i) <= node_cell(image, s, i - 1)
}

// 5: an end is no node, the direction is neither 0 nor 1, or an undirected edge has its first end above its second.
pub fn bad_edge(image: &[u8], s: Sections, i: usize) -> bool
    requires laid { Laid image.now s }
    requires i_bound { i < 65536 }
    ensures { result ≡ bad_edge_lem image.now i }
{
    let first = edge_cell(image, s, i, 0) as usize;
    let second = edge_cell(image, s, i, 1) as usize;
    let direction = edge_cell(image, s, i, 2);
    if s.nodes.count <= first {
        return true;
    }
    if s.nodes.count <= second {
        return true;
    }
    if direction == 1 {
        return false;
    }
    if direction != 0 {
        return true;
    }
    second < first
}

// The pair (a, b) comes before the pair (c, d).
pub fn pair_less(a: usize, b: usize, c: usize, d: usize) -> bool
    ensures { result ≡ pair_less_lem a b c d }
{
    if a == c { b < d } else { a < c }
}

// 6: no element, the label 0, or a pair that does not rise.
pub fn bad_label(image: &[u8], s: Sections, i: usize) -> bool
    requires laid { Laid image.now s }
    requires i_bound { i < 65536 }
    ensures { result ≡ bad_label_lem image.now i }
{
    let element = label_cell(image, s, i, 0) as usize;
    let label = label_cell(image, s, i, 1) as usize;
    if s.nodes.count + s.edges.count <= element {
        return true;
    }
    if label == 0 {
        return true;
    }
    if i == 0 {
        return false;
    }
    !pair_less(
        label_cell(image, s, i - 1, 0) as usize,
        label_cell(image, s, i - 1, 1) as usize,
        element,
        label,
    )
}

// 7: no element, or a pair of element and key that does not rise. Not one function with 6: that has the label 0 in the middle.
pub fn bad_property(image: &[u8], s: Sections, i: usize) -> bool
    requires laid { Laid image.now s }
    requires i_bound { i < 65536 }
    ensures { result ≡ bad_property_lem image.now i }
{
    let element = property_cell(image, s, i, 0) as usize;
    let key = property_cell(image, s, i, 1) as usize;
    if s.nodes.count + s.edges.count <= element {
        return true;
    }
    if i == 0 {
        return false;
    }
    !pair_less(
        property_cell(image, s, i - 1, 0) as usize,
        property_cell(image, s, i - 1, 1) as usize,
        element,
        key,
    )
}
