// 13: a row but the last not named at one place in all, or a last row that is no pattern.
ghost use Rattle.std.specs.Prelude.{◌≡◌, ◌<◌, ◌≤◌, ◌+◌, ◌*◌, length};
ghost use Rattle.meaning.specs.Table.{rows_of, fault13};
ghost use Rattle.rows.specs.Faults.{Formed};
ghost use Rattle.rows.specs.Naming.{Once, Twice, Places, Named};

use crate::row::{is_pattern, row_at};

// At how many places a row that names p names row i.
fn once(i: usize, p: usize) -> usize
    ensures { Once i p result }
{
    if i == p { 1 } else { 0 }
}

// At how many places a row that names p and q names row i.
fn twice(i: usize, p: usize, q: usize) -> usize
    ensures { Twice i p q result }
{
    once(i, p) + once(i, q)
}

// At how many places row j names row i.
fn places(pattern: &[u16], j: usize, i: usize) -> usize
    requires { (j * 5 + 5 ≤ length pattern.now) × Formed pattern.now }
    ensures { Places pattern.now j i result }
{
    let r = row_at(pattern, j);
    let kind = r.kind;
    match kind {
        5..=7 => twice(i, r.p, r.q),
        8 => once(i, r.p),
        18..=19 => twice(i, r.p, r.q),
        20 => once(i, r.p),
        _ => 0,
    }
}

// At how many places row i is named.
fn named(pattern: &[u16], i: usize) -> usize
    requires { (length pattern.now ≤ 320) × Formed pattern.now }
    ensures { Named pattern.now i result }
{
    let rows = pattern.len() / 5;
    let mut n: usize = 0;
    for j in 0..rows {
        n += places(pattern, j, i);
    }
    n
}

// 13: a row but the last that is not named once, or a last row that is a condition.
pub fn loose(pattern: &[u16], i: usize) -> bool
    requires { (i * 5 + 5 ≤ length pattern.now) × (length pattern.now ≤ 320) × Formed pattern.now }
    ensures { result ≡ fault13 (rows_of pattern.now) i }
{
    if i + 1 == pattern.len() / 5 {
        let r = row_at(pattern, i);
        return !is_pattern(r.kind);
    }
    named(pattern, i) != 1
}
