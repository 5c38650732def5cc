// The operations for C: nothing but calls of the proved library and the report. Each promise is one equation with a definition of
// `meaning`, and holds for all that is lent.
#![tactic(auto)]

mod fixed;
mod refusal;

ghost use Rattle.std.specs.Prelude.{◌≡◌, not, ◌≤◌, length};
ghost use Rattle.std.proofs.Math.Option.{none};
ghost use Rattle.meaning.specs.Page.{Left};
ghost use Rattle.meaning.specs.Report.{bit, wide_enough_lem};
ghost use Rattle.meaning.specs.Operations.{ReadLeft, read_image, CheckLeft, JudgeLeft};
ghost use Rattle.meaning.specs.QueryListing.{check_query, fill_page_lem, judge_query, judge_record, query_fixed_fault};
ghost use Rattle.gpc.specs.Answered.{Begun, JudgeReported, RestKept, answer_of};

use fixed::first_cause;
use records::Record;
use words::report_outcome;

// Whether the eight numbers do not fit.
fn is_short(report: &[u8]) -> bool
    ensures { result ≡ not (wide_enough_lem report.now) }
{
    report.len() < 64
}

// 01, 'Read an image'.
pub fn gpc_read_image(image: &[u8], report: &mut [u8]) -> u64
    ensures { ◌≡◌ {A = ReadLeft} (record { result = result; report = report.new }) (read_image image.now report.old) }
{
    if is_short(report) {
        return 0;
    }
    report_outcome(report, image::read(image));
    1
}

// 01, 'Check a pattern'; 02, Q-1: of every part of a query.
pub fn gpc_check_query(query: &[u16], types: &mut [u16], report: &mut [u8]) -> u64
    ensures { ◌≡◌ {A = CheckLeft} (record { result = result; types = types.new; report = report.new }) (check_query query.now types.old report.old) }
{
    if is_short(report) {
        return 0;
    }
    report_outcome(report, query::check_types(query, types));
    1
}

// Why a call goes no further: the report has no room, or a refusal stands in it.
#[derive(Clone, Copy)]
enum Stopped {
    NoReport,
    Reported,
}

impl Stopped {
    // What the call answers.
    fn answer(self) -> u64
        ensures { result ≡ answer_of self }
    {
        match self {
            Stopped::NoReport => 0,
            Stopped::Reported => 1,
        }
    }
}

// What every call that looks for records begins with: Ok where nothing refuses it.
fn begin(image: &[u8], query: &[u16], work: &[u16], report: &mut [u8]) -> Result<(), Stopped>
    ensures { Begun image.now query.now work.now report.old report.new result }
{
    if is_short(report) {
        return Err(Stopped::NoReport);
    }
    let outcome = first_cause(image, query, work);
    if outcome.is_err() {
        report_outcome(report, outcome);
        return Err(Stopped::Reported);
    }
    Ok(())
}

// Yes or no as a number.
fn verdict_number(yes: bool) -> u64
    ensures { result ≡ bit yes }
{
    u64::from(yes)
}

// The judge in the first 20,000 words of the work buffer.
fn judge_in(image: &[u8], query: &[u16], rec: &[u16], work: &mut [u16]) -> bool
    requires { (query_fixed_fault image.now query.now ≡ none) × (20000 ≤ length work.old) }
    ensures { (result ≡ judge_query image.now query.now rec.now) × RestKept work.old work.new }
{
    calls::judge(image, query, rec, &mut work[0..Record::WORK])
}

// The judge's answer where nothing refuses the call.
fn report_verdict(image: &[u8], query: &[u16], rec: &[u16], work: &mut [u16], report: &mut [u8])
    requires { (query_fixed_fault image.now query.now ≡ none) × (20000 ≤ length work.old) × (64 ≤ length report.old) }
    ensures { JudgeReported image.now query.now rec.now work.old report.old work.new report.new }
{
    let yes = judge_in(image, query, rec, work);
    words::clear(work, Record::WORK);
    words::write_report(report, 0, 0, verdict_number(yes), 0, 0, 0);
}

// 01, 'Judge a record'.
pub fn gpc_judge_record(
    image: &[u8],
    query: &[u16],
    rec: &[u16],
    work: &mut [u16],
    report: &mut [u8],
) -> u64
    ensures { ◌≡◌ {A = JudgeLeft} (record { result = result; work = work.new; report = report.new }) (judge_record image.now query.now rec.now work.old report.old) }
{
    if let Err(stopped) = begin(image, query, work, report) {
        return stopped.answer();
    }
    report_verdict(image, query, rec, work, report);
    1
}

// 01, 'Fill a page', with the sitting of 02, Q-3.
pub fn gpc_fill_page(
    image: &[u8],
    query: &[u16],
    bookmark: &[u16],
    sitting: &mut [u8],
    page: &mut [u16],
    work: &mut [u16],
    report: &mut [u8],
) -> u64
    ensures { ◌≡◌ {A = Left} (record { result = result; sitting = sitting.new; page = page.new; work = work.new; report = report.new }) (fill_page_lem image.now query.now bookmark.now (record { sitting = sitting.old; page = page.old; work = work.old; report = report.old })) }
{
    if sitting::is_short(sitting) {
        return 0;
    }
    if let Err(stopped) = begin(image, query, work, report) {
        return stopped.answer();
    }
    calls::fill_page(image, query, bookmark, sitting, page, work, report)
}
