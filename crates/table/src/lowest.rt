// The lowest row with a fault of 01.
ghost use Rattle.std.specs.Prelude.{◌≡◌, ◌≤◌, ◌+◌, ◌*◌, length};
ghost use Rattle.meaning.specs.Basics.{lowest};
ghost use Rattle.meaning.specs.Table.{rows_of};
ghost use Rattle.rows.specs.Faults.{Tells};
ghost use Rattle.table.specs.Ready.{Ready, fault_by};
ghost use Rattle.words.specs.Fault.{found_row};

use crate::repetition::{repeats_edgeless, too_deep};
use crate::typing::untyped;
use rows::{loose, malformed};

// The faults that name a row, in the order of 01.
#[derive(Clone, Copy)]
pub enum Fault {
    Malformed,
    Loose,
    Edgeless,
    TooDeep,
    Untyped,
}

// Whether row i has the fault.
fn is_faulty(pattern: &[u16], fault: Fault, i: usize) -> bool
    requires { (i * 5 + 5 ≤ length pattern.now) × (length pattern.now ≤ 320) × Ready fault pattern.now }
    ensures { Tells (fault_by fault (rows_of pattern.now)) i result }
{
    match fault {
        Fault::Malformed => malformed(pattern, i),
        Fault::Loose => loose(pattern, i),
        Fault::Edgeless => repeats_edgeless(pattern, i),
        Fault::TooDeep => too_deep(pattern, i),
        Fault::Untyped => untyped(pattern, i),
    }
}

// The lowest row with the fault, if there is one.
pub fn lowest_faulty(pattern: &[u16], fault: Fault) -> Option<usize>
    requires { (length pattern.now ≤ 320) × Ready fault pattern.now }
    ensures { found_row result ≡ lowest (length (rows_of pattern.now)) 0 (fault_by fault (rows_of pattern.now)) }
{
    let rows = pattern.len() / 5;
    for i in 0..rows {
        if is_faulty(pattern, fault, i) {
            return Some(i);
        }
    }
    None
}
