// Why a call is refused.
ghost use Rattle.std.specs.Prelude.{◌≡◌};
ghost use Rattle.gpc.specs.Cause.{told_of};
ghost use Rattle.gpc.specs.declared.refusal.Refusal.TheVariants.{Image as ByImage, Query as ByQuery};

use words::Refused;

// What refuses a call that looks for records.
#[derive(Clone, Copy)]
pub enum Refusal {
    Image(image::Refusal),
    Query(query::Refusal),
    Restrictor,
    ShortWork,
}

impl From<image::Refusal> for Refusal {
    ghost from_gives = { λ e r. r ≡ ByImage e };

    fn from(refusal: image::Refusal) -> Refusal {
        Refusal::Image(refusal)
    }
}

impl From<query::Refusal> for Refusal {
    ghost from_gives = { λ e r. r ≡ ByQuery e };

    fn from(refusal: query::Refusal) -> Refusal {
        Refusal::Query(refusal)
    }
}

impl Refused for Refusal {
    ghost told = { told_of };

    fn number(self) -> u64 {
        match self {
            Refusal::Image(refusal) => refusal.number(),
            Refusal::Query(refusal) => refusal.number(),
            Refusal::Restrictor => 21,
            Refusal::ShortWork => 22,
        }
    }

    fn row(self) -> u64 {
        match self {
            Refusal::Image(refusal) => refusal.row(),
            Refusal::Query(refusal) => refusal.row(),
            Refusal::Restrictor | Refusal::ShortWork => 0,
        }
    }
}
