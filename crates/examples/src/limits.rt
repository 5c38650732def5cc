// The most that is allowed passes, one more does not.
ghost use Rattle.std.specs.Prelude.{◌+◌, ◌*◌, ◌≤◌, length};

use crate::{graphs, patterns};
use std::io;

// A step on the first nodes of an image that has only nodes: there is none.
fn step_on(rt: &impl Print, image: &[u8], nodes: usize) -> io::Result<()>
    requires { (nodes ≤ 201) × (16 + 2 * nodes ≤ length image.now) }
{
    let end = 16 + 2 * nodes;
    let pattern = patterns::p();
    printing::print_listing(rt, &image[0..end], &pattern, 1)
}

// Makes the image, then asks.
fn put_and_step(rt: &impl Print, image: &mut [u8; 418], count: usize) -> io::Result<()>
    requires { count ≤ 201 }
{
    graphs::only_nodes(image, count);
    step_on(rt, image, count)
}

// An image of so many nodes, which has room for 201.
fn on_nodes(rt: &impl Print, count: usize) -> io::Result<()>
    requires { count ≤ 201 }
{
    let mut image = [0u8; 418];
    put_and_step(rt, &mut image, count)
}

// 200 nodes pass, 201 give 3.
pub fn nodes(rt: &impl Print) -> io::Result<()> {
    printing::print_text(rt, b"200 nodes, P\n")?;
    on_nodes(rt, 200)?;
    printing::print_text(rt, b"201 nodes, P\n")?;
    on_nodes(rt, 201)
}

// T under the first rows of a table.
fn first_rows(rt: &impl Print, pattern: &[u16], count: usize) -> io::Result<()>
    requires { (count ≤ 65) × (5 * count ≤ length pattern.now) }
{
    let end = 5 * count;
    let image = graphs::t();
    printing::print_listing(rt, &image, &pattern[0..end], 1)
}

// Makes the table, then asks.
fn put_and_ask(rt: &impl Print, pattern: &mut [u16; 325], count: usize) -> io::Result<()>
    requires { (4 ≤ count) × (count ≤ 65) }
{
    patterns::denied(pattern, count);
    first_rows(rt, pattern, count)
}

// A table of so many rows, which has room for 65.
pub fn of_rows(rt: &impl Print, count: usize) -> io::Result<()>
    requires { (4 ≤ count) × (count ≤ 65) }
{
    let mut pattern = [0u16; 325];
    put_and_ask(rt, &mut pattern, count)
}

// 64 rows pass, 65 give 11.
pub fn rows(rt: &impl Print) -> io::Result<()> {
    printing::print_text(rt, b"T, 64 rows\n")?;
    of_rows(rt, 64)?;
    printing::print_text(rt, b"T, 65 rows\n")?;
    of_rows(rt, 65)
}

// T under a node with the variable.
fn of_variable(rt: &impl Print, variable: u16) -> io::Result<()> {
    let image = graphs::t();
    let pattern = patterns::node(variable);
    printing::print_listing(rt, &image, &pattern, 1)
}

// Variable 8 passes, 9 gives 12.
pub fn variables(rt: &impl Print) -> io::Result<()> {
    printing::print_text(rt, b"T, variable 8\n")?;
    of_variable(rt, 8)?;
    printing::print_text(rt, b"T, variable 9\n")?;
    of_variable(rt, 9)
}
