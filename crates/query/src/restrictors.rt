// 21: the restrictors of the parts.
ghost use Rattle.std.specs.Prelude.{◌≡◌, ◌&&◌, false, not, leb};
ghost use Rattle.meaning.specs.QueryWords.{bad_layout_lem, bad_restrictor, parts_of};

use crate::layout::{part_at, parts};

// Whether the number is a restrictor's.
fn is_restrictor(restrictor: usize) -> bool
    ensures { result ≡ (leb 1 restrictor && leb restrictor 4) }
{
    matches!(restrictor, 1..=4)
}

// Whether the restrictor of every part is 1 to 4.
pub fn restrictors_fine(query: &[u16]) -> bool
    requires { bad_layout_lem query.now ≡ false }
    ensures { result ≡ not (bad_restrictor (parts_of query.now)) }
{
    for i in 0..parts(query) {
        let part = part_at(query, i);
        if !is_restrictor(part.restrictor) {
            return false;
        }
    }
    true
}
