// Reported numbers: eight of 64 bits, low byte first, in the first 64 bytes of a lent area.
ghost use Rattle.std.specs.Prelude.{◌≡◌, ◌++◌, ◌+◌, ◌≤◌, length, take, drop};
ghost use Rattle.meaning.specs.Basics.{each};
ghost use Rattle.meaning.specs.Report.{digits, over, report_bytes};

// The eight bytes of a number, from at on.
fn write_number(report: &mut [u8], at: usize, number: u64)
    requires { at + 8 ≤ length report.old }
    ensures { report.new ≡ take at report.old ++ digits 8 number ++ drop (at + 8) report.old }
{
    report[at..at + 8].copy_from_slice(&number.to_le_bytes());
}

// The eight numbers, from the first byte on.
fn write_numbers(report: &mut [u8], numbers: [u64; 8])
    requires { 64 ≤ length report.old }
    ensures { report.new ≡ each numbers (digits 8) ++ drop 64 report.old }
{
    for (i, number) in numbers.iter().enumerate() {
        write_number(report, i * 8, *number);
    }
}

// The report of a call: the refusal's number and row, and up to four more numbers. The last two are never used.
pub fn write_report(report: &mut [u8], number: u64, row: u64, a: u64, b: u64, c: u64, d: u64)
    requires { 64 ≤ length report.old }
    ensures { report.new ≡ over (report_bytes number row a b c d) report.old }
{
    write_numbers(report, [number, row, a, b, c, d, 0, 0]);
}
