// The types that the parts together give the variables 1 to 8, and 33. A join's rule for a shared variable is a concatenation's.
ghost use Rattle.std.specs.Prelude.{◌≡◌};
ghost use Rattle.std.proofs.Math.Option.{none};
ghost use Rattle.joins.specs.Projected.{found_in};
ghost use Rattle.meaning.specs.QueryWords.{parts_of, query_of, query_untyped};
ghost use Rattle.meaning.specs.Table.{pattern_fault, pattern_of};
ghost use Rattle.meaning.specs.Typing.{type_of};
ghost use Rattle.query.specs.Fine.{PartsFine};
ghost use Rattle.typecode.specs.Codes.{code_of};

use crate::layout::{part_at, parts};
use typecode::{CLASH, joined_type};

// The type of x in an accepted pattern.
fn pattern_type(pattern: &[u16], x: usize) -> u64
    requires { pattern_fault pattern.now ≡ none }
    ensures { result ≡ code_of (type_of (pattern_of pattern.now) x) }
{
    table::row_type(pattern, pattern.len() / 5 - 1, x)
}

// The type that the parts together give x, from the last part on.
pub fn type_code(query: &[u16], x: usize) -> u64
    requires { PartsFine query.now }
    ensures { result ≡ code_of (found_in (parts_of query.now) x) }
{
    let mut code: u64 = 0;
    for i in (0..parts(query)).rev() {
        let part = part_at(query, i);
        let from = part.from;
        let to = part.to;
        let own = pattern_type(&query[from..to], x);
        code = joined_type(own, code);
    }
    code
}

// 33: a variable that parts share is not Node in all of them or Edge in all of them.
pub fn untyped(query: &[u16]) -> bool
    requires { PartsFine query.now }
    ensures { result ≡ query_untyped (query_of (parts_of query.now)) }
{
    for x in 1..9 {
        if type_code(query, x) == CLASH {
            return true;
        }
    }
    false
}
