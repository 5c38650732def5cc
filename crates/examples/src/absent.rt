// What a condition keeps where the property is absent (02, Q-2). T has no properties.
use crate::{graphs, limits, patterns};
use std::io;

// Neither a comparison, nor its negation, nor one of the two.
pub fn denials(rt: &impl Print) -> io::Result<()> {
    printing::print_text(rt, b"T, not (key 7 equals 5)\n")?;
    limits::of_rows(rt, 4)?;
    printing::print_text(rt, b"T, not not (key 7 equals 5)\n")?;
    limits::of_rows(rt, 5)?;
    printing::print_text(rt, b"T, key 7 equals 5, or not (key 7 equals 5)\n")?;
    let image = graphs::t();
    let pattern = patterns::equal_or_not();
    printing::print_listing(rt, &image, &pattern, 1)
}
