// The patterns that the examples ask.
ghost use Rattle.std.specs.Prelude.{◌≡◌, ◌<◌, ◌≤◌, length};

// P: forward steps, one or more, variable 1 their group.
pub fn p() -> [u16; 10]
    ensures { 10 ≡ length result }
{
    [2, 1, 0, 0, 0, 8, 0, 0, 1, 65535]
}

// Forward or undirected steps, one or more.
pub fn forward_or_undirected() -> [u16; 20]
    ensures { 20 ≡ length result }
{
    [
        2, 0, 0, 0, 0, 4, 0, 0, 0, 0, 5, 0, 1, 0, 0, 8, 2, 0, 1, 65535,
    ]
}

// A node with a variable.
pub fn node(variable: u16) -> [u16; 5]
    ensures { 5 ≡ length result }
{
    [1, variable, 0, 0, 0]
}

// Key 7 of a node equals 5, or does not.
pub fn equal_or_not() -> [u16; 30]
    ensures { 30 ≡ length result }
{
    [
        1, 1, 0, 0, 0, 16, 1, 7, 5, 0, 16, 1, 7, 5, 0, 20, 2, 0, 0, 0, 19, 1, 3, 0, 0, 7, 0, 4, 0,
        0,
    ]
}

// A row whose last number is 0.
fn put_row(pattern: &mut [u16; 325], row: usize, kind: u16, p: u16, q: u16, r: u16)
    requires { row < 65 }
{
    let at = 5 * row;
    pattern[at..at + 5].copy_from_slice(&[kind, p, q, r, 0]);
}

// A node under a condition that is denied again and again, so that the table has just as many rows as are asked for.
pub fn denied(pattern: &mut [u16; 325], rows: usize)
    requires { (4 ≤ rows) × (rows ≤ 65) }
{
    put_row(pattern, 0, 1, 1, 0, 0);
    put_row(pattern, 1, 16, 1, 7, 5);
    let last = rows - 1;
    for row in 2..last {
        put_row(pattern, row, 20, (row - 1) as u16, 0, 0);
    }
    put_row(pattern, last, 7, 0, (last - 1) as u16, 0);
}
