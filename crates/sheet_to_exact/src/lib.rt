// From a sheet to an exact division: the text of a sheet in, the text of an exact division of it, or none, out.
#![tactic(auto)]

ghost use Rattle.sheet.specs.Refusals.{answer_of};
ghost use Rattle.sheet_to_exact.specs.Showing.{Shown};

use sheet::refusal::Refusal;

// Prints an exact division of the sheet that `text` holds, or the word none, into the lent buffer and answers the length printed, or answers
// the number of the first reason to turn the sheet down and leaves the buffer as it is.
#[tactic(auto, using(crate::proofs::Showing::reasons))]
pub fn show_exact(text: &[u8], buffer: &mut [u8]) -> Result<usize, Refusal>
    ensures { Shown text.now buffer.old (answer_of result) buffer.new }
{
    let contents = reading::read(text)?;
    exact_printing::print_exact(contents, buffer)
}
