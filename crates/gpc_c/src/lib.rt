// The operations as C calls them (include/gpc.h), under gpc's names and with its promises. A slice is passed as a pointer and a count.
#![tactic(auto)]

ghost use Rattle.std.specs.Prelude.{◌≡◌};
ghost use Rattle.meaning.specs.Page.{Left};
ghost use Rattle.meaning.specs.Operations.{ReadLeft, read_image, CheckLeft, JudgeLeft};
ghost use Rattle.meaning.specs.QueryListing.{check_query, fill_page_lem, judge_record};

// 01, 'Read an image'.
#[unsafe(no_mangle)]
pub extern "C" fn gpc_read_image(image: &[u8], report: &mut [u8]) -> u64
    ensures { ◌≡◌ {A = ReadLeft} (record { result = result; report = report.new }) (read_image image.now report.old) }
{
    gpc::gpc_read_image(image, report)
}

// 01, 'Check a pattern'; 02, Q-1: of every part of a query.
#[unsafe(no_mangle)]
pub extern "C" fn gpc_check_query(query: &[u16], types: &mut [u16], report: &mut [u8]) -> u64
    ensures { ◌≡◌ {A = CheckLeft} (record { result = result; types = types.new; report = report.new }) (check_query query.now types.old report.old) }
{
    gpc::gpc_check_query(query, types, report)
}

// 01, 'Judge a record'.
#[unsafe(no_mangle)]
pub extern "C" fn gpc_judge_record(
    image: &[u8],
    query: &[u16],
    rec: &[u16],
    work: &mut [u16],
    report: &mut [u8],
) -> u64
    ensures { ◌≡◌ {A = JudgeLeft} (record { result = result; work = work.new; report = report.new }) (judge_record image.now query.now rec.now work.old report.old) }
{
    gpc::gpc_judge_record(image, query, rec, work, report)
}

// 01, 'Fill a page', with the sitting of 02, Q-3.
#[unsafe(no_mangle)]
pub extern "C" fn gpc_fill_page(
    image: &[u8],
    query: &[u16],
    bookmark: &[u16],
    sitting: &mut [u8],
    page: &mut [u16],
    work: &mut [u16],
    report: &mut [u8],
) -> u64
    ensures { ◌≡◌ {A = Left} (record { result = result; sitting = sitting.new; page = page.new; work = work.new; report = report.new }) (fill_page_lem image.now query.now bookmark.now (record { sitting = sitting.old; page = page.old; work = work.old; report = report.old })) }
{
    gpc::gpc_fill_page(image, query, bookmark, sitting, page, work, report)
}
