// Every question to the plan of a part: its table, word for word, and its restrictor.
ghost use Rattle.std.specs.Prelude.{◌≡◌, ◌<◌, ◌≤◌, ◌+◌, ◌*◌, ◌/◌, get_or, length};
ghost use Rattle.path.specs.Masks.{base_of};
ghost use Rattle.rows.specs.Rows.{Reads};
ghost use Rattle.compiled.specs.Parts.{Tabled, restrictor_in, table_in};

use crate::word::word;
use path::Base;
use rows::Row;

// Where the table begins.
pub const TABLE: usize = 8;

// The number of rows of the table.
pub fn rows(plan: &[u64]) -> usize
    requires { Tabled plan.now }
    ensures { result ≡ length (table_in plan.now) / 5 }
{
    word(plan, 0) as usize / 5
}

// Number j of the table.
fn cell(plan: &[u64], j: usize) -> usize
    requires { Tabled plan.now × (j < length (table_in plan.now)) }
    ensures { (result ≡ get_or (table_in plan.now) j 0) × (result < 65536) }
{
    word(plan, TABLE + j) as usize
}

// The five numbers of row i.
pub fn row_at(plan: &[u64], i: usize) -> Row
    requires { Tabled plan.now × (i * 5 + 5 ≤ length (table_in plan.now)) }
    ensures { Reads (table_in plan.now) i result }
{
    let at = i * 5;
    let kind = cell(plan, at);
    let p = cell(plan, at + 1);
    let q = cell(plan, at + 2);
    let r = cell(plan, at + 3);
    let s = cell(plan, at + 4);
    Row { kind, p, q, r, s }
}

// The base of the restrictor. The restrictor's number is decoded here alone.
pub fn base_of(plan: &[u64]) -> Base
    ensures { base_of result ≡ (restrictor_in plan.now).base }
{
    match word(plan, 1) {
        1 | 3 => Base::Trail,
        _ => Base::Simple,
    }
}

// Whether only the shortest answers count.
pub fn is_shortest(plan: &[u64]) -> bool
    ensures { result ≡ (restrictor_in plan.now).shortest }
{
    match word(plan, 1) {
        1 | 2 => false,
        _ => true,
    }
}
