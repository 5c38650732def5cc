// The check of a query: the first cause in the order of 02, Q-1.
ghost use Rattle.std.specs.Prelude.{◌≡◌};
ghost use Rattle.meaning.specs.QueryWords.{query_fault};
ghost use Rattle.query.specs.Verdict.{cause_of, told_of};
ghost use Rattle.query.specs.declared.causes.Refusal.TheVariants.{BadPattern as ByPattern};

use crate::layout::bad_layout;
use crate::names::bad_names;
use crate::patterns::check_patterns;
use crate::typing::untyped;
use words::Refused;

// Why a query is refused. BadPattern is a part's own cause.
#[derive(Clone, Copy)]
pub enum Refusal {
    TypeAreaTooShort,
    BadLayout,
    BadName,
    BadPattern(table::Refusal),
    Untyped,
}

impl From<table::Refusal> for Refusal {
    ghost from_gives = { λ e r. r ≡ ByPattern e };

    fn from(refusal: table::Refusal) -> Refusal {
        Refusal::BadPattern(refusal)
    }
}

impl Refused for Refusal {
    ghost told = { told_of };

    fn number(self) -> u64 {
        match self {
            Refusal::TypeAreaTooShort => 17,
            Refusal::BadLayout => 31,
            Refusal::BadName => 32,
            Refusal::BadPattern(refusal) => refusal.number(),
            Refusal::Untyped => 33,
        }
    }

    // The faulty row of the part's own table.
    fn row(self) -> u64 {
        match self {
            Refusal::BadPattern(refusal) => refusal.row(),
            _ => 0,
        }
    }
}

// 31, 32, 11 to 16 of each part in part order, 33.
pub fn check(query: &[u16]) -> Result<(), Refusal>
    ensures { cause_of result ≡ query_fault query.now }
{
    if bad_layout(query) {
        return Err(Refusal::BadLayout);
    }
    if bad_names(query) {
        return Err(Refusal::BadName);
    }
    check_patterns(query)?;
    if untyped(query) {
        return Err(Refusal::Untyped);
    }
    Ok(())
}
