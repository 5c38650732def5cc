// Where the rows of each section begin and how many there are: what every look-up needs to know of the directory.
ghost use Rattle.std.specs.Prelude.{◌≡◌};
ghost use Rattle.image.specs.Sections.{Laid, crowded};

use crate::directory::directory_of;

// The rows of a section: where the first begins, and how many there are.
#[derive(Clone, Copy)]
pub struct Rows {
    pub at: usize,
    pub count: usize,
}

// The rows of each section.
#[derive(Clone, Copy)]
pub struct Sections {
    pub nodes: Rows,
    pub edges: Rows,
    pub labels: Rows,
    pub properties: Rows,
}

// Where the rows stand, by the directory alone.
pub fn sections_of(image: &[u8]) -> Sections
    ensures { Laid image.now result }
{
    let d = directory_of(image);
    Sections {
        nodes: Rows {
            at: d.nodes.at,
            count: d.nodes.bytes / 2,
        },
        edges: Rows {
            at: d.edges.at,
            count: d.edges.bytes / 6,
        },
        labels: Rows {
            at: d.labels.at,
            count: d.labels.bytes / 4,
        },
        properties: Rows {
            at: d.properties.at,
            count: d.properties.bytes / 6,
        },
    }
}

// More rows in a section than are allowed.
pub fn too_many(s: Sections) -> bool
    ensures { result ≡ crowded s }
{
    s.nodes.count > 200 || s.edges.count > 200 || s.labels.count > 800 || s.properties.count > 2000
}
