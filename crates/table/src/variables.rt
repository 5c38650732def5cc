// The variables of each row of an accepted table, and their types, filled once into lent memory.
ghost use Rattle.std.specs.Prelude.{◌≡◌, ◌++◌, ◌<◌, ◌≤◌, ◌+◌, ◌*◌, ◌/◌, length, drop};
ghost use Rattle.table.specs.Ready.{Checked};
ghost use Rattle.table.specs.Variables.{One, Within, Weight, HasVariables, HasType, list_of, variables_at_lem, type_at};

use crate::typing::type_of;

// The bit of variable x.
fn one(x: usize) -> u64
    requires { x < 9 }
    ensures { One x result }
{
    1 << x
}

// The type of x in a row, as a number; 0 where x is not used.
pub fn row_type(pattern: &[u16], row: usize, x: usize) -> u64
    requires { Within pattern.now row }
    ensures { HasType pattern.now row x result }
{
    type_of(pattern, row, x)
}

// The bit of x if the row uses it.
fn weight(pattern: &[u16], row: usize, x: usize) -> u64
    requires { Within pattern.now row × (x < 9) }
    ensures { Weight pattern.now row x result }
{
    if row_type(pattern, row, x) == 0 {
        return 0;
    }
    one(x)
}

// The variables of a row, as bits 1 to 8.
pub fn row_variables(pattern: &[u16], row: usize) -> u64
    requires { Within pattern.now row }
    ensures { HasVariables pattern.now row result }
{
    let mut mask: u64 = 0;
    for x in 1..9 {
        mask += weight(pattern, row, x);
    }
    mask
}

// A number for each row: its variables.
pub fn fill_variables(pattern: &[u16], variables: &mut [u64])
    requires { Checked pattern.now × (length pattern.now / 5 ≤ length variables.old) }
    ensures { variables.new ≡ list_of (variables_at_lem pattern.now) (length pattern.now / 5) ++ drop (length pattern.now / 5) variables.old }
{
    let rows = pattern.len() / 5;
    for i in 0..rows {
        variables[i] = row_variables(pattern, i);
    }
}

// Eight numbers for each row: the types of the variables 1 to 8.
pub fn fill_types(pattern: &[u16], types: &mut [u64])
    requires { Checked pattern.now × (8 * (length pattern.now / 5) ≤ length types.old) }
    ensures { types.new ≡ list_of (type_at pattern.now) (8 * (length pattern.now / 5)) ++ drop (8 * (length pattern.now / 5)) types.old }
{
    let all = 8 * (pattern.len() / 5);
    for k in 0..all {
        types[k] = row_type(pattern, k / 8, k % 8 + 1);
    }
}
