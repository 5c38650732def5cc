// The eight numbers of a report.
ghost use Rattle.std.specs.Prelude.{◌≡◌, ◌<◌, ◌≤◌};
ghost use Rattle.meaning.specs.Report.{reported};

use words::size_at;

// One of the eight, low byte first.
pub fn number_of(report: &[u8; 64], which: usize) -> u64
    requires { which < 8 }
    ensures { result ≡ reported which report.now }
{
    let at = 8 * which;
    let low = size_at(report, at) + 65536 * size_at(report, at + 2);
    let high = size_at(report, at + 4) + 65536 * size_at(report, at + 6);
    (low + 4294967296 * high) as u64
}

// The words used on a page, of which it has 20,000.
pub fn used_of(report: &[u8; 64]) -> usize
    requires { reported 3 report.now ≤ 20000 }
    ensures { result ≡ reported 3 report.now }
{
    number_of(report, 3) as usize
}
