// The words of the rows of an image.
ghost use Rattle.std.specs.Prelude.{◌≡◌, ◌<◌};
ghost use Rattle.meaning.specs.Image.{label_cell_lem, property_cell_lem};
ghost use Rattle.image.specs.Sections.{Checked};
ghost use Rattle.compiled.specs.Copies.{EdgeWord, LabelWord, PropertyWord};

use crate::find::UNIT;
use crate::word::long;
use image::{Sections, edge_cell, label_cell, property_cell};

// First end, second end, direction.
pub fn edge_word(image: &[u8], s: Sections, i: usize) -> u64
    requires { Checked image.now s × (i < s.edges.count) }
    ensures { EdgeWord image.now i result }
{
    let a = long(edge_cell(image, s, i, 0));
    let b = long(edge_cell(image, s, i, 1));
    let c = long(edge_cell(image, s, i, 2));
    a + 65536 * b + 4294967296 * c
}

// The element of a row: its number is below 400.
fn label_owner(image: &[u8], s: Sections, i: usize) -> u64
    requires { Checked image.now s × (i < s.labels.count) }
    ensures { (result ≡ label_cell_lem image.now i 0) × (result < 400) }
{
    long(label_cell(image, s, i, 0))
}

fn property_owner(image: &[u8], s: Sections, i: usize) -> u64
    requires { Checked image.now s × (i < s.properties.count) }
    ensures { (result ≡ property_cell_lem image.now i 0) × (result < 400) }
{
    long(property_cell(image, s, i, 0))
}

// Element and label.
pub fn label_word(image: &[u8], s: Sections, i: usize) -> u64
    requires { Checked image.now s × (i < s.labels.count) }
    ensures { LabelWord image.now i result }
{
    let a = label_owner(image, s, i);
    let b = long(label_cell(image, s, i, 1));
    (a * 65536 + b) * UNIT
}

// Element, key and value.
pub fn property_word(image: &[u8], s: Sections, i: usize) -> u64
    requires { Checked image.now s × (i < s.properties.count) }
    ensures { PropertyWord image.now i result }
{
    let a = property_owner(image, s, i);
    let b = long(property_cell(image, s, i, 1));
    let c = long(property_cell(image, s, i, 2));
    (a * 65536 + b) * UNIT + c
}
