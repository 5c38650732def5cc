// 11 to 16 of each part, in part order.
ghost use Rattle.std.specs.Prelude.{◌≡◌, false};
ghost use Rattle.meaning.specs.QueryWords.{bad_layout_lem, parts_fault, parts_of};
ghost use Rattle.table.specs.Verdict.{cause_of};

use crate::layout::{part_at, parts};

// The first cause of the first part that has one.
pub fn check_patterns(query: &[u16]) -> Result<(), table::Refusal>
    requires { bad_layout_lem query.now ≡ false }
    ensures { cause_of result ≡ parts_fault (parts_of query.now) }
{
    for i in 0..parts(query) {
        let part = part_at(query, i);
        let from = part.from;
        let to = part.to;
        table::check(&query[from..to])?;
    }
    Ok(())
}
