// Whether the nodes of the path are nodes of the graph.
ghost use Rattle.judge.specs.Judging.{NodesWithin, Told};

use records::word;

pub fn nodes_within(rec: &[u16], last: usize, count: usize) -> bool
    requires { Told rec.now last }
    ensures { NodesWithin rec.now last count result }
{
    for i in 0..last + 1 {
        if count <= word(rec, 2 * i + 1) {
            return false;
        }
    }
    true
}
