// The numbers of a row. One function for a section: each is one line, and its promise is another definition of the meaning.
ghost use Rattle.std.specs.Prelude.{◌≡◌, ◌<◌};
ghost use Rattle.meaning.specs.Image.{node_cell_lem, edge_cell_lem, label_cell_lem, property_cell_lem};
ghost use Rattle.image.specs.Sections.{Laid};

use crate::sections::Sections;

// 01: the outer number of node row i.
pub fn node_cell(image: &[u8], s: Sections, i: usize) -> u16
    requires laid { Laid image.now s }
    requires i_bound { i < 65536 }
    ensures { result ≡ node_cell_lem image.now i }
{
    words::number_at(image, s.nodes.at + 2 * i)
}

// Number j of edge row i: first end, second end, direction.
pub fn edge_cell(image: &[u8], s: Sections, i: usize, j: usize) -> u16
    requires laid { Laid image.now s }
    requires i_bound { i < 65536 }
    requires j_bound { j < 3 }
    ensures { result ≡ edge_cell_lem image.now i j }
{
    words::number_at(image, s.edges.at + (6 * i + 2 * j))
}

// Number j of label row i: element, label.
pub fn label_cell(image: &[u8], s: Sections, i: usize, j: usize) -> u16
    requires laid { Laid image.now s }
    requires i_bound { i < 65536 }
    requires j_bound { j < 2 }
    ensures { result ≡ label_cell_lem image.now i j }
{
    words::number_at(image, s.labels.at + (4 * i + 2 * j))
}

// Number j of property row i: element, key, value.
pub fn property_cell(image: &[u8], s: Sections, i: usize, j: usize) -> u16
    requires laid { Laid image.now s }
    requires i_bound { i < 65536 }
    requires j_bound { j < 3 }
    ensures { result ≡ property_cell_lem image.now i j }
{
    words::number_at(image, s.properties.at + (6 * i + 2 * j))
}
