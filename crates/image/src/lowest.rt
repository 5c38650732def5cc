// The lowest faulty row of a section.
ghost use Rattle.std.specs.Prelude.{◌≡◌, ◌<◌};
ghost use Rattle.meaning.specs.Basics.{lowest};
ghost use Rattle.image.specs.Sections.{Laid};
ghost use Rattle.image.specs.Faults.{rows_in, row_count_lem, bad_row_lem};
ghost use Rattle.words.specs.Fault.{found_row};

use crate::faults::{bad_edge, bad_label, bad_node, bad_property};
use crate::sections::Sections;

// The sections of an image, in their order.
#[derive(Clone, Copy)]
pub enum Section {
    Nodes,
    Edges,
    Labels,
    Properties,
}

// The number of rows of a section.
fn row_count(s: Sections, section: Section) -> usize
    ensures { result ≡ rows_in s section }
{
    match section {
        Section::Nodes => s.nodes.count,
        Section::Edges => s.edges.count,
        Section::Labels => s.labels.count,
        Section::Properties => s.properties.count,
    }
}

// Whether row i of a section is faulty.
fn bad_row(image: &[u8], s: Sections, section: Section, i: usize) -> bool
    requires laid { Laid image.now s }
    requires i_bound { i < 65536 }
    ensures { result ≡ bad_row_lem section image.now i }
{
    match section {
        Section::Nodes => bad_node(image, s, i),
        Section::Edges => bad_edge(image, s, i),
        Section::Labels => bad_label(image, s, i),
        Section::Properties => bad_property(image, s, i),
    }
}

// The lowest faulty row of a section, if there is one.
pub fn lowest_bad(image: &[u8], s: Sections, section: Section) -> Option<usize>
    requires { Laid image.now s }
    ensures { found_row result ≡ lowest (row_count_lem section image.now) 0 (bad_row_lem section image.now) }
{
    let count = row_count(s, section);
    for row in 0..count {
        if bad_row(image, s, section, row) {
            return Some(row);
        }
    }
    None
}
