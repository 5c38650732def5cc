// Where a record ends, by the types of the variables. It is a question about any words whatever.
ghost use Rattle.std.specs.Prelude.{◌+◌, ◌<◌, ◌≤◌, length};
ghost use Rattle.printing.specs.Sizes.{GroupEnd, PathEnd, RecordEnd, ValueEnd, VariableEnd};

use crate::places::{forward, word_at};
use records::Record;

// A path: its number of edges, then node, edge, node and so on.
fn path_end(words: &[u16], at: usize) -> usize
    ensures { PathEnd words.now at result }
{
    forward(words, at, 2 * word_at(words, at) + 2)
}

// A value of the type whose numbers begin at kind, left of them at most: an element, Nothing, or a group.
#[cycle(group_end_value_end)]
fn value_end(left: usize, types: &[u16], kind: usize, words: &[u16], at: usize) -> usize
    requires { kind + left ≤ 48 }
    ensures { ValueEnd left types.now kind words.now at result }
{
    if left == 0 {
        return forward(words, at, 1);
    }
    match word_at(types, kind) {
        3 => {
            if word_at(words, at) == Record::NOTHING {
                return forward(words, at, 1);
            }
            value_end(left - 1, types, kind + 1, words, at)
        }
        4 => group_end(left - 1, types, kind + 1, words, at),
        _ => forward(words, at, 1),
    }
}

// A group: its count, then each factor's path and value.
#[cycle(group_end_value_end)]
fn group_end(left: usize, types: &[u16], kind: usize, words: &[u16], at: usize) -> usize
    requires { kind + left ≤ 48 }
    ensures { GroupEnd left types.now kind words.now at result }
{
    let factors = word_at(words, at);
    let mut end = forward(words, at, 1);
    for _factor in 0..factors {
        // past the words' end there is nothing to look at, whatever the count says
        if words.len() <= end {
            return end;
        }
        end = path_end(words, end);
        end = value_end(left, types, kind, words, end);
    }
    end
}

// The value of a variable, counted from 0 here; a variable without a type has none.
fn variable_end(variable: usize, types: &[u16], words: &[u16], at: usize) -> usize
    requires { (variable < 8) × (at ≤ length words.now) }
    ensures { VariableEnd variable types.now words.now at result }
{
    if word_at(types, 6 * variable) == 0 {
        return at;
    }
    value_end(6, types, 6 * variable, words, at)
}

// The record that begins at a place: the path, then the values, variables rising.
pub fn record_end(types: &[u16], words: &[u16], at: usize) -> usize
    ensures { RecordEnd types.now words.now at result }
{
    let mut end = path_end(words, at);
    for variable in 0..8 {
        end = variable_end(variable, types, words, end);
    }
    end
}
