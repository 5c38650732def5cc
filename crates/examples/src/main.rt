// Runs the examples of 01 that are not marked there, and those of Q-2. The file stdout has what each must print.
#![tactic(auto)]

mod absent;
mod graphs;
mod limits;
mod patterns;

ghost use Rattle.std.specs.Prelude.{◌≤◌, length};

use std::io;

// The shortest for each pair of ends: from 0 to 2 only by edge 2, from 0 to 0 in three steps.
fn shortest(rt: &impl Print) -> io::Result<()> {
    printing::print_text(
        rt,
        b"T, forward or undirected, 1 to unbounded, restrictor 3\n",
    )?;
    let image = graphs::t();
    let pattern = patterns::forward_or_undirected();
    printing::print_listing(rt, &image, &pattern, 3)
}

// An accepted pattern on the graph without nodes.
fn on_nothing(rt: &impl Print, pattern: &[u16]) -> io::Result<()>
    requires { length pattern.now ≤ 325 }
{
    let image = graphs::nothing();
    printing::print_listing(rt, &image, pattern, 1)
}

// Without nodes each accepted pattern gives done, count 0.
fn empty(rt: &impl Print) -> io::Result<()> {
    printing::print_text(rt, b"no nodes, P\n")?;
    let steps = patterns::p();
    on_nothing(rt, &steps)?;
    printing::print_text(rt, b"no nodes, forward or undirected, 1 to unbounded\n")?;
    let either = patterns::forward_or_undirected();
    on_nothing(rt, &either)?;
    printing::print_text(rt, b"no nodes, variable 8\n")?;
    let eighth = patterns::node(8);
    on_nothing(rt, &eighth)
}

// The examples in the order of 01 and 02. The first write that fails ends the program with its error.
fn main(rt: HostRuntime) -> io::Result<()> {
    shortest(&rt)?;
    limits::nodes(&rt)?;
    limits::rows(&rt)?;
    limits::variables(&rt)?;
    empty(&rt)?;
    absent::denials(&rt)
}
