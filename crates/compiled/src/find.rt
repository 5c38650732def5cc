// The search for a pair of an element and a name among words that rise by it.
ghost use Rattle.std.specs.Prelude.{◌<◌, ◌≤◌};
ghost use Rattle.compiled.specs.Words.{is_below};
ghost use Rattle.compiled.specs.Sound.{FoundBy, LowerBound, Rises};

use crate::word::word;

// A word is a pair times this, and the pair's value.
pub const UNIT: u64 = 17179869184;

// How many of the n words from `at` on have a pair below: the only word that can have the pair is the next one. By hand, since
// `partition_point` takes a slice of all n words, and no caller promises that the graph is so long: a word past its end is 0.
fn lower_bound(graph: &[u64], at: usize, n: usize, pair: u64) -> usize
    requires { Rises at n graph.now × (at ≤ 4096) × (n ≤ 4096) }
    ensures { LowerBound (is_below graph.now at pair) n result }
{
    let mut low: usize = 0;
    let mut high = n;
    while low < high {
        let mid = low + (high - low) / 2;
        let w = word(graph, at + mid);
        if w / UNIT < pair {
            low = mid + 1;
        } else {
            high = mid;
        }
    }
    low
}

// The word that has the pair, if one of the n words from `at` on has it.
pub fn find(graph: &[u64], at: usize, n: usize, pair: u64) -> Option<u64>
    requires { Rises at n graph.now × (at ≤ 4096) × (n ≤ 4096) }
    ensures { FoundBy at n graph.now pair result }
{
    let i = lower_bound(graph, at, n, pair);
    if n <= i {
        return None;
    }
    let w = word(graph, at + i);
    if w / UNIT == pair { Some(w) } else { None }
}
