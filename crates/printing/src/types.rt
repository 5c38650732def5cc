// The line of types: for each variable present its number and its type's numbers, joined by dots.
ghost use Rattle.std.specs.Prelude.{◌<◌};

use crate::places::word_at;
use crate::text::Text;
use std::io;

// The six numbers of the type that begins at a place, zeros left off.
fn put_type(rt: &impl Print, out: &mut Text, types: &[u16], first: usize) -> io::Result<()>
    requires { first < 48 }
{
    out.put_number(rt, word_at(types, first) as u64)?;
    for i in 1..6 {
        let number = word_at(types, first + i);
        if number != 0 {
            out.put_byte(rt, b'.')?;
            out.put_number(rt, number as u64)?;
        }
    }
    Ok(())
}

// A variable, counted from 0 here, with its type; nothing if it is not used.
fn put_variable(rt: &impl Print, out: &mut Text, types: &[u16], variable: usize) -> io::Result<()>
    requires { variable < 8 }
{
    if word_at(types, 6 * variable) == 0 {
        return Ok(());
    }
    out.put_byte(rt, b' ')?;
    out.put_number(rt, variable as u64 + 1)?;
    out.put_byte(rt, b':')?;
    put_type(rt, out, types, 6 * variable)
}

// The first line: the variables present, rising, with their types.
pub fn put_types(rt: &impl Print, out: &mut Text, types: &[u16; 72]) -> io::Result<()> {
    out.put_bytes(rt, b"types")?;
    for variable in 0..8 {
        put_variable(rt, out, types, variable)?;
    }
    out.put_byte(rt, b'\n')
}
