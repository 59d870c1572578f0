// From a sheet to its division: the text of a sheet in, the text of its division out.
#![tactic(auto)]

ghost use Rattle.std.specs.Prelude.{◌≡◌, length};
ghost use Rattle.sheet.specs.Answers.{map_answer, after};
ghost use Rattle.sheet.specs.Refusals.{answer_of};
ghost use Rattle.writing.specs.Filled.{filled};
ghost use Rattle.shares.specs.Shares.{standard_allowance};
ghost use Rattle.sheet_to_division.specs.ShareOut.{share_out};

use sheet::refusal::Refusal;

// Prints the division of the sheet that `text` holds, with an allowance for cutting, into the lent buffer and answers the length
// printed, or answers the number of the first reason to turn the sheet down and leaves the buffer as it is.
#[tactic(auto, using(crate::proofs::ByPrinting::reasons))]
pub fn share_out(text: &[u8], allowance: u32, buffer: &mut [u8]) -> Result<usize, Refusal>
    ensures answer { answer_of result ≡ map_answer length (share_out text.now allowance (length buffer.old)) }
    ensures buffer { buffer.new ≡ after filled (share_out text.now allowance (length buffer.old)) buffer.old }
{
    let contents = reading::read(text)?;
    printing::print_division(contents, allowance, buffer)
}

// The same with the allowance of the dividing program, which is enough for every sheet.
pub fn share_out_standard(text: &[u8], buffer: &mut [u8]) -> Result<usize, Refusal>
    ensures answer { answer_of result ≡ map_answer length (share_out text.now standard_allowance (length buffer.old)) }
    ensures buffer { buffer.new ≡ after filled (share_out text.now standard_allowance (length buffer.old)) buffer.old }
{
    share_out(text, division::ALLOWANCE, buffer)
}
