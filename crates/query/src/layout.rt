// Where a query's parts stand (02, Q-1): the number of parts, three words for each, then the patterns in turn.
ghost use Rattle.std.specs.Prelude.{◌≡◌, false, ◌+◌, ◌*◌, ◌<◌, ◌≤◌, length};
ghost use Rattle.meaning.specs.QueryWords.{bad_layout_lem, parts_of};
ghost use Rattle.query.specs.Parts.{PartsCounted, PartIs, StartIs};

use words::wide;

// The head of a part, and the indices between which its pattern's words stand.
#[derive(Clone, Copy)]
pub struct Part {
    pub restrictor: usize,
    pub name: usize,
    pub from: usize,
    pub to: usize,
}

// Where the pattern of part i of n begins; for i = n where the last one ends. The lengths are added as whole numbers.
fn pattern_start(query: &[u16], n: usize, i: usize) -> usize
    requires { (i ≤ n) × (n ≤ 4) × (1 + 3 * n ≤ length query.now) }
    ensures { StartIs query.now n i result }
{
    let mut from = 1 + 3 * n;
    for k in 0..i {
        from += wide(query[3 * k + 3]);
    }
    from
}

// 31: no part, over four, or words not so laid out.
pub fn bad_layout(query: &[u16]) -> bool
    ensures { result ≡ bad_layout_lem query.now }
{
    if query.len() == 0 {
        return true;
    }
    let n = wide(query[0]);
    if n < 1 {
        return true;
    }
    if 4 < n {
        return true;
    }
    if query.len() < 1 + 3 * n {
        return true;
    }
    pattern_start(query, n, n) != query.len()
}

// How many parts there are.
pub fn parts(query: &[u16]) -> usize
    requires { bad_layout_lem query.now ≡ false }
    ensures { PartsCounted query.now result }
{
    wide(query[0])
}

// The part i.
pub fn part_at(query: &[u16], i: usize) -> Part
    requires { (bad_layout_lem query.now ≡ false) × (i < length (parts_of query.now)) }
    ensures { PartIs query.now i result }
{
    let n = parts(query);
    let from = pattern_start(query, n, i);
    let at = 1 + 3 * i;
    let restrictor = wide(query[at]);
    let name = wide(query[at + 1]);
    let long = wide(query[at + 2]);
    Part {
        restrictor,
        name,
        from,
        to: from + long,
    }
}
