// Reading an image: the first cause of a refusal.
ghost use Rattle.std.specs.Prelude.{◌≡◌};
ghost use Rattle.meaning.specs.Basics.{at_row, lowest};
ghost use Rattle.meaning.specs.Image.{image_fault, row_fault};
ghost use Rattle.image.specs.Faults.{bad_row_lem, number_of_section, row_count_lem};
ghost use Rattle.image.specs.Sections.{Laid};
ghost use Rattle.image.specs.Verdict.{cause_of, told_of};

use crate::directory::good_directory;
use crate::lowest::{Section, lowest_bad};
use crate::sections::{Sections, sections_of, too_many};
use words::Refused;

// Why an image is refused; the last names the faulty row of its section.
#[derive(Clone, Copy)]
pub enum Refusal {
    TooShort,
    BadDirectory,
    TooManyRows,
    BadRow(Section, usize),
}

impl Refused for Refusal {
    ghost told = { told_of };

    fn number(self) -> u64 {
        match self {
            Refusal::TooShort => 1,
            Refusal::BadDirectory => 2,
            Refusal::TooManyRows => 3,
            Refusal::BadRow(Section::Nodes, _) => 4,
            Refusal::BadRow(Section::Edges, _) => 5,
            Refusal::BadRow(Section::Labels, _) => 6,
            Refusal::BadRow(Section::Properties, _) => 7,
        }
    }

    fn row(self) -> u64 {
        match self {
            Refusal::BadRow(_, i) => i as u64,
            _ => 0,
        }
    }
}

// Refused at the lowest faulty row of a section.
fn read_section(image: &[u8], s: Sections, section: Section) -> Result<(), Refusal>
    requires { Laid image.now s }
    ensures { cause_of result ≡ at_row (number_of_section section) (lowest (row_count_lem section image.now) 0 (bad_row_lem section image.now)) }
{
    match lowest_bad(image, s, section) {
        Some(i) => Err(Refusal::BadRow(section, i)),
        None => Ok(()),
    }
}

// 4 to 7: the first section with a faulty row, and its lowest one.
fn read_rows(image: &[u8], s: Sections) -> Result<(), Refusal>
    requires { Laid image.now s }
    ensures { cause_of result ≡ row_fault image.now }
{
    read_section(image, s, Section::Nodes)?;
    read_section(image, s, Section::Edges)?;
    read_section(image, s, Section::Labels)?;
    read_section(image, s, Section::Properties)
}

// The causes 1 to 7, in the order of 01.
pub fn read(image: &[u8]) -> Result<(), Refusal>
    ensures { cause_of result ≡ image_fault image.now }
{
    if image.len() < 16 {
        return Err(Refusal::TooShort);
    }
    if !good_directory(image) {
        return Err(Refusal::BadDirectory);
    }
    let s = sections_of(image);
    if too_many(s) {
        return Err(Refusal::TooManyRows);
    }
    read_rows(image, s)
}
