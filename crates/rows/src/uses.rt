// How the numbers of a row are used, by its kind.
ghost use Rattle.std.specs.Prelude.{◌≡◌, ◌<◌};
ghost use Rattle.rows.specs.Uses.{use_of_lem};

// The codes are numbers: with an enum in the table the proof of `use_of` did not close (an entry is then no number that antt computes).
// Not listed for the kind: 0.
pub const ZERO: u8 = 0;
// A variable, or 0 for none.
pub const NAME: u8 = 1;
// Any number: a label, a key, a constant, a greatest count.
pub const ANY: u8 = 2;
// A lower pattern row.
pub const PART: u8 = 3;
// A lower condition row.
pub const TEST: u8 = 4;
// A variable.
pub const GIVEN: u8 = 5;
// A least count.
pub const COUNT: u8 = 6;
// A number of a kind that is not listed: none is right.
pub const NONE: u8 = 7;

// The uses of p, q, r, s for each kind from 0 to 20.
const USES: [u8; 84] = [
    // 0 is no kind
    NONE, NONE, NONE, NONE,
    // 1 node
    NAME, ANY, ZERO, ZERO,
    // 2 forward edge
    NAME, ANY, ZERO, ZERO,
    // 3 backward edge
    NAME, ANY, ZERO, ZERO,
    // 4 undirected edge
    NAME, ANY, ZERO, ZERO,
    // 5 union
    PART, PART, ZERO, ZERO,
    // 6 concatenation
    PART, PART, ZERO, ZERO,
    // 7 conditioned
    PART, TEST, ZERO, ZERO,
    // 8 repetition
    PART, ZERO, COUNT, ANY,
    // 9 to 15 are no kinds
    NONE, NONE, NONE, NONE, NONE, NONE, NONE, NONE, NONE, NONE, NONE, NONE, NONE, NONE, NONE, NONE,
    NONE, NONE, NONE, NONE, NONE, NONE, NONE, NONE, NONE, NONE, NONE, NONE,
    // 16 property equals constant
    GIVEN, ANY, ANY, ZERO,
    // 17 two properties equal
    GIVEN, ANY, GIVEN, ANY,
    // 18 and
    TEST, TEST, ZERO, ZERO,
    // 19 or
    TEST, TEST, ZERO, ZERO,
    // 20 not
    TEST, ZERO, ZERO, ZERO,
];

// How number i of a kind, p to s, is used.
pub fn use_of(kind: usize, i: usize) -> u8
    requires kind_bound { kind < 21 }
    requires i_bound { i < 4 }
    ensures { result ≡ use_of_lem kind i }
{
    USES[kind * 4 + i]
}
