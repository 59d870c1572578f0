// From a text to the strict layout: the text of a sheet in, the strict text of that sheet out.
#![tactic(auto)]

ghost use Rattle.std.specs.Prelude.{◌≡◌, length};
ghost use Rattle.sheet.specs.Answers.{map_answer, after};
ghost use Rattle.sheet.specs.Refusals.{answer_of};
ghost use Rattle.writing.specs.Filled.{filled};
ghost use Rattle.sheet_to_strict.specs.Rewriting.{rewriting};

use sheet::refusal::Refusal;

// Writes the strict text of the sheet that `text` holds into the lent buffer and answers its length, or answers the number of the
// first reason to turn the sheet down and leaves the buffer as it is.
#[tactic(auto, using(crate::proofs::Read::reasons))]
pub fn write_strict(text: &[u8], buffer: &mut [u8]) -> Result<usize, Refusal>
    ensures answer { answer_of result ≡ map_answer length (rewriting text.now (length buffer.old)) }
    ensures buffer { buffer.new ≡ after filled (rewriting text.now (length buffer.old)) buffer.old }
{
    let contents = reading::read(text)?;
    strict_writing::write_sheet(contents, buffer)
}
