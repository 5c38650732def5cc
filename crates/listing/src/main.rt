// Prints a listing: standard input holds the image, the pattern and the restrictor, as 01 says under 'Examples'.
#![tactic(auto)]

mod input;

use std::io;

// Reads all, then prints.
fn main(rt: HostRuntime) -> io::Result<()> {
    let mut stdin = rt.stdin();
    let mut head = [0u8; 6];
    input::read_full(&mut stdin, &mut head)?;
    let mut image = [0u8; 65536];
    let bytes = input::read_image(&mut stdin, &head, &mut image)?;
    let mut pattern = [0u16; 321];
    let words = input::read_pattern(&mut stdin, &head, &mut pattern)?;
    printing::print_listing(
        &rt,
        &image[..bytes],
        &pattern[..words],
        input::restrictor(&head),
    )
}
