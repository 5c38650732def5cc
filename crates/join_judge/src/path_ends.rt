// The paths that the words begin with.
ghost use Rattle.std.specs.Prelude.{◌<◌, ◌≤◌, length};
ghost use Rattle.join_judge.specs.Paths.{HasPath, PathEnd, PathsEnd, SpanIs};

use records::{Record, word};

// Where the path that begins at `at` ends, if the words have one there.
fn path_end(words: &[u16], at: usize) -> Option<usize>
    requires { (length words.now ≤ 20000) × (at ≤ length words.now) }
    ensures { PathEnd words.now at result }
{
    if words.len() <= at {
        return None;
    }
    let last = word(words, at);
    if 200 < last {
        return None;
    }
    let end = at + Record::path_words(last);
    if words.len() < end {
        return None;
    }
    Some(end)
}

// Where the first n paths end, if the words have so many.
pub fn paths_end(words: &[u16], n: usize) -> Option<usize>
    requires { length words.now ≤ 20000 }
    ensures { PathsEnd words.now n result }
{
    let mut at = 0;
    for _i in 0..n {
        at = path_end(words, at)?;
    }
    Some(at)
}

// Where a path begins and ends.
#[derive(Clone, Copy)]
pub struct Span {
    pub from: usize,
    pub to: usize,
}

// The path of number i.
pub fn path_at(words: &[u16], i: usize) -> Span
    requires { (length words.now ≤ 20000) × HasPath words.now i × (i < 4) }
    ensures { SpanIs words.now i result.from result.to }
{
    let from = paths_end(words, i);
    let to = paths_end(words, i + 1);
    Span {
        from: from.unwrap(),
        to: to.unwrap(),
    }
}
