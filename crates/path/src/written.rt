// The words of a path at the beginning of a record.
ghost use Rattle.std.specs.Prelude.{◌≡◌, ◌∷◌, ◌+◌, ◌*◌, ◌≤◌, length, take};
ghost use Rattle.meaning.specs.Record.{places, path_words_lem};
ghost use Rattle.meaning.specs.Report.{over};
ghost use Rattle.path.specs.Walks.{walk_of};

use crate::path::Path;
use words::copy_at;

// A word, and behind it the first n of some words.
fn write_behind(rec: &mut [u16], first: u16, words: &[u16], n: usize)
    requires { (n ≤ length words.now) × (n + 1 ≤ length rec.old) }
    ensures { rec.new ≡ over (first ∷ take n words.now) rec.old }
{
    copy_at(rec, 1, &words[0..n]);
    rec[0] = first;
}

// A number of edges and the words of the path, which may be the first part of a path with so many edges.
pub fn write_beginning(rec: &mut [u16], edges: u16, path: Path)
    requires { (path.len ≤ 200) × (2 * path.len + 2 ≤ length rec.old) }
    ensures { rec.new ≡ over (edges ∷ places (walk_of path)) rec.old }
{
    let n = 2 * path.len + 1;
    let at = path.at;
    write_behind(rec, edges, &at, n);
}

// The whole path: its own number of edges, and its words.
pub fn write_path(rec: &mut [u16], path: Path)
    requires { (path.len ≤ 200) × (2 * path.len + 2 ≤ length rec.old) }
    ensures { rec.new ≡ over (path_words_lem (walk_of path)) rec.old }
{
    let edges = path.len as u16;
    write_beginning(rec, edges, path);
}
