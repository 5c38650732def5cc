// The named paths behind the values.
ghost use Rattle.std.specs.Prelude.{◌<◌, ◌≤◌, length};
ghost use Rattle.join_judge.specs.Names.{AfterName, AfterNamed, AfterNames, AreNames};
ghost use Rattle.join_judge.specs.Paths.{HasPath, HasPaths};

use crate::path_ends::path_at;
use parts::{Shape, named_part};

// Where the path of number i ends, if it stands at `at` once more.
fn name_end(words: &[u16], i: usize, at: usize) -> Option<usize>
    requires { (length words.now ≤ 20000) × HasPath words.now i × (i < 4) × (at ≤ length words.now) }
    ensures { AfterName words.now i at result }
{
    let s = path_at(words, i);
    let path = &words[s.from..s.to];
    if words[at..].starts_with(path) {
        return Some(at + path.len());
    }
    None
}

// Where the path ends that x names, if it stands at `at`; `at` if x names none.
fn named_end(words: &[u16], shape: Shape, x: usize, at: usize) -> Option<usize>
    requires { (length words.now ≤ 20000) × HasPaths words.now shape.parts × (shape.parts ≤ 4) × (1 ≤ x) × (at ≤ length words.now) }
    ensures { AfterNamed words.now shape x at result }
{
    match named_part(shape, x) {
        Some(i) => name_end(words, i, at),
        None => Some(at),
    }
}

// Where the paths end that 9 to 12 name, if they stand from `from` on.
fn names_end(words: &[u16], shape: Shape, from: usize) -> Option<usize>
    requires { (length words.now ≤ 20000) × HasPaths words.now shape.parts × (shape.parts ≤ 4) × (from ≤ length words.now) }
    ensures { AfterNames words.now shape from result }
{
    let mut at = from;
    for x in 9..13 {
        at = named_end(words, shape, x, at)?;
    }
    Some(at)
}

// Whether the words from `from` on are the paths that 9 to 12 name.
pub fn are_names(words: &[u16], shape: Shape, from: usize) -> bool
    requires { (length words.now ≤ 20000) × HasPaths words.now shape.parts × (shape.parts ≤ 4) × (from ≤ length words.now) }
    ensures { AreNames words.now shape from result }
{
    match names_end(words, shape, from) {
        Some(end) => end == words.len(),
        None => false,
    }
}
