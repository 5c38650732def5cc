// What refuses a call before it looks for records: the image, the query, its restrictors, the work buffer, in the order of 01 and 02.
ghost use Rattle.gpc.specs.Answered.{FirstCause};

use crate::refusal::Refusal;
use records::Record;

// The causes of the judge and of the page through 22: 1 to 7, 31, 32, 11 to 16 of each part, 33, 21, 22.
pub fn first_cause(image: &[u8], query: &[u16], work: &[u16]) -> Result<(), Refusal>
    ensures { FirstCause image.now query.now work.now result }
{
    image::read(image)?;
    query::check(query)?;
    if !query::restrictors_fine(query) {
        return Err(Refusal::Restrictor);
    }
    if work.len() < Record::WORK {
        return Err(Refusal::ShortWork);
    }
    Ok(())
}
