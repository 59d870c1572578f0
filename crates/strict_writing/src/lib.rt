// Writing the strict text of a sheet into a lent buffer (document 01, "The sheet"). Its meaning stands in the specs of strict_text.
#![tactic(auto)]

ghost use Rattle.std.specs.Prelude.{◌≡◌, length};
ghost use Rattle.sheet.specs.Answers.{map_answer, after};
ghost use Rattle.sheet.specs.Refusals.{answer_of};
ghost use Rattle.writing.specs.Filled.{filling, filled};
ghost use Rattle.strict_text.specs.StrictText.{strict_text};

use crate::lines::put_sheet;
use sheet::refusal::Refusal;
use sheet::{Contents, Sheet};
use writing::Writer;

pub mod lines;

// The lines of all agents and the last line, of every table.
const LONGEST_LINES: usize = Sheet::AGENTS * (17 + Sheet::ITEMS * (1 + Sheet::MARK_DIGITS)) + 6;

// A buffer of so many bytes is long enough for every table within the limits: the head, a line for each agent, and the last line.
pub const LONGEST: usize = 30 + LONGEST_LINES;

// One of so many is long enough whatever the counts, which have up to 20 digits each.
const LONGEST_OF_ANY: usize = 27 + 2 * 20 + LONGEST_LINES;

// How long the strict text of a sheet is: it is written once where every text has room. Taken by value: then the types bound its numbers.
fn sheet_length(contents: Contents) -> usize
    ensures { result ≡ length (strict_text contents) }
{
    let mut place = [0u8; LONGEST_OF_ANY];
    let mut writer = Writer::new(&mut place);
    put_sheet(&mut writer, contents);
    writer.at
}

// Writes the strict text of a sheet from the front of the buffer; refused with 10 where the buffer is shorter than the
// text, and then the buffer keeps all its bytes.
pub fn write_sheet(contents: Contents, buffer: &mut [u8]) -> Result<usize, Refusal>
    ensures answer { answer_of result ≡ map_answer length (filling (length buffer.old) (strict_text contents)) }
    ensures buffer { buffer.new ≡ after filled (filling (length buffer.old) (strict_text contents)) buffer.old }
{
    let length = sheet_length(contents);
    if buffer.len() < length {
        return Err(Refusal::BufferTooShort);
    }
    let mut writer = Writer::new(buffer);
    put_sheet(&mut writer, contents);
    Ok(length)
}
