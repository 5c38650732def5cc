// The check of a table: the first cause in the order of 01, at its lowest row. Past 13 every row is named at one place, so that a
// walk down from a row meets each row below it once.
ghost use Rattle.std.specs.Prelude.{◌≡◌, ◌≤◌, length};
ghost use Rattle.meaning.specs.Table.{row_cause, rows_of, table_fault, pattern_fault};
ghost use Rattle.table.specs.Ready.{Ready, fault_by, number_of_fault};
ghost use Rattle.table.specs.Verdict.{cause_of, told_of};

use crate::lowest::{Fault, lowest_faulty};
use words::Refused;

// Why a table is refused; the second names the faulty row.
#[derive(Clone, Copy)]
pub enum Refusal {
    BadLength,
    BadRow(Fault, usize),
}

impl Refused for Refusal {
    ghost told = { told_of };

    fn number(self) -> u64 {
        match self {
            Refusal::BadLength => 11,
            Refusal::BadRow(Fault::Malformed, _) => 12,
            Refusal::BadRow(Fault::Loose, _) => 13,
            Refusal::BadRow(Fault::Edgeless, _) => 14,
            Refusal::BadRow(Fault::TooDeep, _) => 15,
            Refusal::BadRow(Fault::Untyped, _) => 16,
        }
    }

    fn row(self) -> u64 {
        match self {
            Refusal::BadLength => 0,
            Refusal::BadRow(_, i) => i as u64,
        }
    }
}

// Refused at the lowest row with the fault.
fn check_fault(pattern: &[u16], fault: Fault) -> Result<(), Refusal>
    requires { (length pattern.now ≤ 320) × Ready fault pattern.now }
    ensures { cause_of result ≡ row_cause (rows_of pattern.now) (number_of_fault fault) (fault_by fault (rows_of pattern.now)) }
{
    match lowest_faulty(pattern, fault) {
        Some(i) => Err(Refusal::BadRow(fault, i)),
        None => Ok(()),
    }
}

// 12 to 16: the first fault that a row has, and the lowest row that has it.
fn check_rows(pattern: &[u16]) -> Result<(), Refusal>
    requires { length pattern.now ≤ 320 }
    ensures { cause_of result ≡ table_fault (rows_of pattern.now) }
{
    check_fault(pattern, Fault::Malformed)?;
    check_fault(pattern, Fault::Loose)?;
    check_fault(pattern, Fault::Edgeless)?;
    check_fault(pattern, Fault::TooDeep)?;
    check_fault(pattern, Fault::Untyped)
}

// 11 to 16.
pub fn check(pattern: &[u16]) -> Result<(), Refusal>
    ensures { cause_of result ≡ pattern_fault pattern.now }
{
    let n = pattern.len();
    if n % 5 != 0 {
        return Err(Refusal::BadLength);
    }
    if n == 0 {
        return Err(Refusal::BadLength);
    }
    if 320 < n {
        return Err(Refusal::BadLength);
    }
    check_rows(pattern)
}
