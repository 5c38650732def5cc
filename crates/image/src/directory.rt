// The directory: where each of the four sections begins and how many bytes it has.
ghost use Rattle.std.specs.Prelude.{◌≡◌, ◌<◌};
ghost use Rattle.meaning.specs.Image.{good_directory_lem};
ghost use Rattle.image.specs.Directory.{Placed, Listed, Small, meets, whole};

// A section's offset and its length in bytes.
#[derive(Clone, Copy)]
pub struct Extent {
    pub at: usize,
    pub bytes: usize,
}

// 01: the four pairs of offset and length, in the order of the sections.
#[derive(Clone, Copy)]
pub struct Directory {
    pub nodes: Extent,
    pub edges: Extent,
    pub labels: Extent,
    pub properties: Extent,
}

// Pair k of the directory.
fn section(image: &[u8], k: usize) -> Extent
    requires { k < 4 }
    ensures { Placed image.now k result }
{
    Extent {
        at: words::size_at(image, 4 * k),
        bytes: words::size_at(image, 4 * k + 2),
    }
}

// All four pairs; bytes that are not there count as 0.
pub fn directory_of(image: &[u8]) -> Directory
    ensures { Listed image.now result }
{
    let nodes = section(image, 0);
    let edges = section(image, 1);
    let labels = section(image, 2);
    let properties = section(image, 3);
    Directory {
        nodes,
        edges,
        labels,
        properties,
    }
}

// Each section begins where the one before ends, and the last ends with the image.
fn sections_meet(d: Directory, length: usize) -> bool
    requires { Small d }
    ensures { result ≡ meets d length }
{
    d.nodes.at == 16
        && d.edges.at == d.nodes.at + d.nodes.bytes
        && d.labels.at == d.edges.at + d.edges.bytes
        && d.properties.at == d.labels.at + d.labels.bytes
        && length == d.properties.at + d.properties.bytes
}

// Each section is whole rows of its own width.
fn whole_rows(d: Directory) -> bool
    ensures { result ≡ whole d }
{
    d.nodes.bytes % 2 == 0
        && d.edges.bytes % 6 == 0
        && d.labels.bytes % 4 == 0
        && d.properties.bytes % 6 == 0
}

// No cause for 2.
pub fn good_directory(image: &[u8]) -> bool
    ensures { result ≡ good_directory_lem image.now }
{
    let d = directory_of(image);
    sections_meet(d, image.len()) && whole_rows(d)
}
