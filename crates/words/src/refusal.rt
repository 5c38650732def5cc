// What a report tells of a refusal, whichever check refuses.
ghost use Rattle.std.specs.Prelude.{◌≡◌, ℕ, ◌≤◌, length};
ghost use Rattle.meaning.specs.Report.{cause_bytes, over};
ghost use Rattle.words.specs.Fault.{cause_by};

use crate::report::write_report;

// Why a call is refused.
pub trait Refused {
    // The refusal's number and the faulty row, 0 where none is named.
    ghost told: { Self → ℕ × ℕ };

    fn number(self) -> u64
        ensures { result ≡ (told self).0 };

    fn row(self) -> u64
        ensures { result ≡ (told self).1 };
}

// The number and the row of a refusal, 0 and 0 where nothing is refused; all else is 0.
pub fn report_outcome<R: Refused + Copy>(report: &mut [u8], outcome: Result<(), R>)
    requires { 64 ≤ length report.old }
    ensures { report.new ≡ over (cause_bytes (cause_by R.told outcome)) report.old }
{
    match outcome {
        Ok(()) => write_report(report, 0, 0, 0, 0, 0, 0),
        Err(refusal) => write_report(report, refusal.number(), refusal.row(), 0, 0, 0, 0),
    }
}
