// 12: a malformed row.
ghost use Rattle.std.specs.Prelude.{◌<◌, ◌≤◌, ◌+◌, ◌*◌, length};
ghost use Rattle.meaning.specs.Table.{rows_of, fault12};
ghost use Rattle.rows.specs.Uses.{Misused};
ghost use Rattle.rows.specs.Faults.{Tells};

use crate::row::{is_condition, is_pattern, row_at};
use crate::uses::{ANY, COUNT, GIVEN, NAME, PART, TEST, ZERO, use_of};

// Whether a number of row i is outside what its use allows.
fn misused(pattern: &[u16], i: usize, usage: u8, n: usize) -> bool
    requires { i * 5 + 5 ≤ length pattern.now }
    ensures { Misused (rows_of pattern.now) i usage n result }
{
    match usage {
        ZERO => n != 0,
        NAME => 8 < n,
        ANY => false,
        PART => i <= n || !is_pattern(row_at(pattern, n).kind),
        TEST => i <= n || !is_condition(row_at(pattern, n).kind),
        GIVEN => n == 0 || 8 < n,
        COUNT => 65534 < n,
        _ => true,
    }
}

// 12: a kind not listed, or a number that the kind does not allow.
pub fn malformed(pattern: &[u16], i: usize) -> bool
    requires { i * 5 + 5 ≤ length pattern.now }
    ensures { Tells (fault12 (rows_of pattern.now)) i result }
{
    let r = row_at(pattern, i);
    let kind = r.kind;
    // early returns: of a chain of `||` over these calls the proof did not close
    if 20 < kind {
        return true;
    }
    if misused(pattern, i, use_of(kind, 0), r.p) {
        return true;
    }
    if misused(pattern, i, use_of(kind, 1), r.q) {
        return true;
    }
    if misused(pattern, i, use_of(kind, 2), r.r) {
        return true;
    }
    if misused(pattern, i, use_of(kind, 3), r.s) {
        return true;
    }
    kind == 8 && r.s < r.r
}
