// The types in words, and the check that writes them.
ghost use Rattle.std.specs.Prelude.{◌≡◌, ◌<◌, ◌≤◌, length};
ghost use Rattle.meaning.specs.QueryListing.{query_in};
ghost use Rattle.meaning.specs.QueryWords.{query_type_words};
ghost use Rattle.meaning.specs.Report.{over};
ghost use Rattle.query.specs.Fine.{Accepted};
ghost use Rattle.query.specs.TypeArea.{Digits, TypesLeft};

use crate::causes::{Refusal, check};
use crate::names::name_used;
use crate::typing::type_code;
use typecode::put_type;
use words::clear;

// 02: a path name has type Path, reported as 5.
const PATH: u64 = 5;

// The number of what is found of x, 1 to 12, in an accepted query.
fn found_code(query: &[u16], x: usize) -> u64
    requires { Accepted query.now × (1 ≤ x) × (x < 13) }
    ensures { Digits query.now x result }
{
    if x < 9 {
        return type_code(query, x);
    }
    if name_used(query, x, 0) {
        return PATH;
    }
    0
}

// The types of the twelve variables in a query that was accepted.
fn write_types(query: &[u16], types: &mut [u16])
    requires { Accepted query.now × (72 ≤ length types.old) }
    ensures { types.new ≡ over (query_type_words (query_in query.now)) types.old }
{
    for x in 0..12 {
        let code = found_code(query, x + 1);
        put_type(types, 6 * x, code);
    }
}

// 17, then the check; the types in the first 72 words.
pub fn check_types(query: &[u16], types: &mut [u16]) -> Result<(), Refusal>
    ensures { TypesLeft query.now types.old types.new result }
{
    if types.len() < 72 {
        return Err(Refusal::TypeAreaTooShort);
    }
    let outcome = check(query);
    if outcome.is_err() {
        clear(types, 72);
    } else {
        write_types(query, types);
    }
    outcome
}
