// Whether the path keeps the restrictor's base: a trail repeats no edge, a simple path no node.
ghost use Rattle.judge.specs.Judging.{RepeatsNothing, Told};

use path::{Base, Used};

pub fn repeats_nothing(rec: &[u16], last: usize, base: Base) -> bool
    requires { Told rec.now last }
    ensures { RepeatsNothing rec.now last base result }
{
    let mut used = Used::start(rec[1]);
    for i in 0..last {
        let k = 2 * i + 2;
        let e = rec[k];
        let v = rec[k + 1];
        if used.allows(base, e, v) {
            used = used.stepped(e, v);
        } else {
            return false;
        }
    }
    true
}
