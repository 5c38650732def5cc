// A whole listing: a page is filled, printed, and the next one filled after its last record.
ghost use Rattle.std.specs.Prelude.{◌≡◌, ◌≤◌, length, IfOk, OnErr};
ghost use Rattle.std.proofs.Math.Option.{none};
ghost use Rattle.meaning.specs.QueryWords.{query_fault};
ghost use Rattle.meaning.specs.Report.{reported};
ghost use Rattle.printing.specs.Run.{Filled, First, Followed, OnePart, SoFar, TypesOf, Whole};

use crate::bookmark::take_mark;
use crate::lines::{put_done, put_page, put_refusal};
use crate::one_part::{MOST_WORDS, query_of};
use crate::report::{number_of, used_of};
use crate::text::Text;
use crate::types::put_types;
use gpc::{gpc_check_query, gpc_fill_page};
use records::Record;
use std::io;

// A page, and as many words for a call to work in: no record is longer than such a page.
type Words = [u16; Record::WORK];

// A report's eight numbers.
type Report = [u8; 64];

// Fills the page with what comes after a bookmark.
fn fill(image: &[u8], query: &[u16], bookmark: &[u16], page: &mut Words, report: &mut Report)
    ensures { Filled image.now query.now bookmark.now page.old report.old page.new report.new }
{
    // the program keeps no total: each page has a fresh sitting, which takes any count
    let mut sitting = [0u8; 4];
    let mut work = [0u16; Record::WORK];
    gpc_fill_page(
        image,
        query,
        bookmark,
        &mut sitting,
        page,
        &mut work,
        report,
    );
}

// Fills the page with what comes after its last record.
fn fill_next(image: &[u8], query: &[u16], types: &[u16; 72], page: &mut Words, report: &mut Report)
    requires { reported 3 report.old ≤ 20000 }
    ensures { Followed image.now query.now types.now page.old report.old page.new report.new }
{
    let used = used_of(report);
    let mut mark = [0u16; Record::WORK];
    let marked = take_mark(&mut mark, page, used, types);
    fill(image, query, &mark[0..marked], page, report);
}

// Prints the records of a page.
fn print_page(
    rt: &impl Print,
    out: &mut Text,
    types: &[u16; 72],
    page: &Words,
    report: &Report,
) -> io::Result<()>
    requires { reported 3 report.now ≤ 20000 }
{
    put_page(rt, out, types, page, used_of(report))?;
    out.flush(rt)
}

// Prints the first page, which is filled already, and the pages after it, each before the next is looked for; and gives the count
// of their records. The loop keeps `Shown`: what is printed is the last page of a host's run. Each page but the last has a record, so
// there is a last one. An error is that of a write, and leaves the page that was being printed, which is the last of a run so far.
fn print_pages(
    rt: &impl Print,
    out: &mut Text,
    image: &[u8],
    query: &[u16],
    types: &[u16; 72],
    page: &mut Words,
    report: &mut Report,
) -> io::Result<u64>
    requires { TypesOf query.now types.now × First image.now query.now page.old report.old }
    ensures ok { IfOk result (λ count. Whole image.now query.now page.new report.new count) }
    ensures err { OnErr result (SoFar image.now query.now page.new report.new) }
{
    print_page(rt, out, types, page, report)?;
    let mut count = number_of(report, 2);
    while number_of(report, 4) == 0 {
        fill_next(image, query, types, page, report);
        print_page(rt, out, types, page, report)?;
        count = count.wrapping_add(number_of(report, 2));
    }
    Ok(count)
}

// The types of the variables, as the checker writes them.
fn types_of(query: &[u16]) -> [u16; 72]
    requires { OnePart query.now × (query_fault query.now ≡ none) }
    ensures { TypesOf query.now result }
{
    let mut types = [0u16; 72];
    let mut report = [0u8; 64];
    gpc_check_query(query, &mut types, &mut report);
    types
}

// Prints the types and the pages, and puts the last line.
fn put_listing(
    rt: &impl Print,
    out: &mut Text,
    image: &[u8],
    query: &[u16],
    page: &mut Words,
    report: &mut Report,
) -> io::Result<()>
    requires { OnePart query.now × First image.now query.now page.old report.old }
{
    let types = types_of(query);
    put_types(rt, out, &types)?;
    out.flush(rt)?;
    let count = print_pages(rt, out, image, query, &types, page, report)?;
    put_done(rt, out, count)
}

// Puts why a call was refused, or its page and those after it.
fn put_answer(rt: &impl Print, out: &mut Text, image: &[u8], query: &[u16]) -> io::Result<()>
    requires { OnePart query.now }
{
    let mut page = [0u16; Record::WORK];
    let mut report = [0u8; 64];
    fill(image, query, &query[..0], &mut page, &mut report);
    let number = number_of(&report, 0);
    if number != 0 {
        return put_refusal(rt, out, number, number_of(&report, 1));
    }
    put_listing(rt, out, image, query, &mut page, &mut report)
}

// The same for a pattern and a restrictor, as the words of a query of one part.
fn put_pattern(
    rt: &impl Print,
    out: &mut Text,
    image: &[u8],
    pattern: &[u16],
    restrictor: u16,
) -> io::Result<()>
    requires { length pattern.now ≤ 325 }
{
    let mut query = [0u16; MOST_WORDS];
    let words = query_of(&mut query, pattern, restrictor);
    put_answer(rt, out, image, &query[..words])
}

// Prints the listing of an image, a pattern and a restrictor, or why it is refused. An error is that of the first write that failed:
// nothing is looked for or written after it.
pub fn print_listing(
    rt: &impl Print,
    image: &[u8],
    pattern: &[u16],
    restrictor: u16,
) -> io::Result<()>
    requires { length pattern.now ≤ 325 }
{
    let mut out = Text::new();
    put_pattern(rt, &mut out, image, pattern, restrictor)?;
    out.flush(rt)
}
