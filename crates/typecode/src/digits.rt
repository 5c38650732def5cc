// A type's number as words.
ghost use Rattle.std.specs.Prelude.{◌≡◌, ◌++◌, ◌≤◌, ◌+◌, length, take, drop};
ghost use Rattle.typecode.specs.Octal.{octal};

// The six digits of a type, from index at on.
pub fn put_type(types: &mut [u16], at: usize, code: u64)
    requires { at + 6 ≤ length types.old }
    ensures { types.new ≡ take at types.old ++ octal 6 code ++ drop (at + 6) types.old }
{
    let a = code / 8;
    let b = a / 8;
    let c = b / 8;
    let d = c / 8;
    let e = d / 8;
    types[at] = (code % 8) as u16;
    types[at + 1] = (a % 8) as u16;
    types[at + 2] = (b % 8) as u16;
    types[at + 3] = (c % 8) as u16;
    types[at + 4] = (d % 8) as u16;
    types[at + 5] = (e % 8) as u16;
}
