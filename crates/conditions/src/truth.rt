// The truth values that a condition can still have, and their connectives (02, Q-2: true, false, unknown).
ghost use Rattle.std.specs.Prelude.{◌≡◌};
ghost use Rattle.matcher.specs.Conditions.{and_truths, any_truth_lem, may_hold_lem, not_truths, or_truths, the_truth};
ghost use Rattle.meaning.specs.Truth.{Unknown, decided};
ghost use Rattle.conditions.specs.Truths.{truths_of};

// Which of the three are still possible: true, false, unknown.
#[derive(Clone, Copy)]
pub struct Truths {
    pub yes: bool,
    pub no: bool,
    pub neither: bool,
}

// All of them: nothing is known yet.
pub fn any_truth() -> Truths
    ensures { truths_of result ≡ any_truth_lem }
{
    Truths {
        yes: true,
        no: true,
        neither: true,
    }
}

// Unknown, and nothing else.
pub fn unknown() -> Truths
    ensures { truths_of result ≡ the_truth Unknown }
{
    Truths {
        yes: false,
        no: false,
        neither: true,
    }
}

// True or false.
pub fn decided(b: bool) -> Truths
    ensures { truths_of result ≡ the_truth (decided b) }
{
    Truths {
        yes: b,
        no: !b,
        neither: false,
    }
}

// Kind 20.
pub fn negated(a: Truths) -> Truths
    ensures { truths_of result ≡ not_truths (truths_of a) }
{
    Truths {
        yes: a.no,
        no: a.yes,
        neither: a.neither,
    }
}

// Kind 18: false by one side alone, true by both, else unknown.
pub fn conjoined(a: Truths, b: Truths) -> Truths
    ensures { truths_of result ≡ and_truths (truths_of a) (truths_of b) }
{
    let by_first = a.neither & (b.neither | b.yes);
    let by_second = a.yes & b.neither;
    Truths {
        yes: a.yes & b.yes,
        no: a.no | b.no,
        neither: by_first | by_second,
    }
}

// Kind 19: true by one side alone, false by both, else unknown.
pub fn disjoined(a: Truths, b: Truths) -> Truths
    ensures { truths_of result ≡ or_truths (truths_of a) (truths_of b) }
{
    negated(conjoined(negated(a), negated(b)))
}

// Whether it can still be true: a match is kept on nothing else.
pub fn may_hold(a: Truths) -> bool
    ensures { result ≡ may_hold_lem (truths_of a) }
{
    a.yes
}
