// 32: path names.
ghost use Rattle.std.specs.Prelude.{◌≡◌, false, ◌<◌, ◌≤◌, length, drop};
ghost use Rattle.meaning.specs.QueryWords.{bad_layout_lem, bad_names_lem, is_name_lem, name_used_lem, parts_of};
ghost use Rattle.query.specs.Names.{bad_first_name};

use crate::layout::{part_at, parts};

// Whether the number is one of the path names.
fn is_name(name: usize) -> bool
    ensures { result ≡ is_name_lem name }
{
    matches!(name, 9..=12)
}

// Whether a part from i on has the name.
pub fn name_used(query: &[u16], name: usize, i: usize) -> bool
    requires { (bad_layout_lem query.now ≡ false) × (i ≤ length (parts_of query.now)) }
    ensures { result ≡ name_used_lem name (drop i (parts_of query.now)) }
{
    let n = parts(query);
    for j in i..n {
        let part = part_at(query, j);
        if name == part.name {
            return true;
        }
    }
    false
}

// Whether the name of part i is none of 0 and 9 to 12, or a later part has it too.
fn bad_name(query: &[u16], i: usize) -> bool
    requires { (bad_layout_lem query.now ≡ false) × (i < length (parts_of query.now)) }
    ensures { result ≡ bad_first_name (drop i (parts_of query.now)) }
{
    let part = part_at(query, i);
    let name = part.name;
    // early returns: `name != 0 && (!is_name(name) || ..)` is one line that has to be read twice
    if name == 0 {
        return false;
    }
    if is_name(name) {
        return name_used(query, name, i + 1);
    }
    true
}

// 32: a name outside 0 and 9 to 12, or one of 9 to 12 used twice.
pub fn bad_names(query: &[u16]) -> bool
    requires { bad_layout_lem query.now ≡ false }
    ensures { result ≡ bad_names_lem (parts_of query.now) }
{
    for i in 0..parts(query) {
        if bad_name(query, i) {
            return true;
        }
    }
    false
}
