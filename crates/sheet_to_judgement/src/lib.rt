// From a sheet with a division behind it to a judgement: the text of both in, the margins of the agents, or a refusal's number, out.
#![tactic(auto)]

ghost use Rattle.std.specs.Prelude.{◌≡◌, length};
ghost use Rattle.sheet.specs.Answers.{map_answer, after};
ghost use Rattle.sheet.specs.Refusals.{answer_of};
ghost use Rattle.writing.specs.Filled.{filled};
ghost use Rattle.stated_truth.specs.Lines.{stated_in};
ghost use Rattle.sheet_to_judgement.specs.TextJudged.{judgement_from};
ghost use Rattle.sheet_to_judgement.specs.internal.Printing.{printing_judgement};

use crate::accepted::print_margins;
use division_reading::{Stated, read_division};
use judging::judge;
use sheet::refusal::Refusal;
use sheet::{Contents, Sheet};

pub mod accepted;

// Judges a division of a sheet and prints the margins; refused as by `judge`, else with 10 where the buffer is shorter than the text.
#[tactic(auto, using(crate::proofs::Answers::reasons))]
fn print_judged(
    contents: Contents,
    stated: Option<Stated>,
    buffer: &mut [u8],
) -> Result<usize, Refusal>
    ensures answer { answer_of result ≡ map_answer length (printing_judgement contents (stated_in contents.agents stated) (length buffer.old)) }
    ensures buffer { buffer.new ≡ after filled (printing_judgement contents (stated_in contents.agents stated) (length buffer.old)) buffer.old }
{
    let margins = judge(contents, stated)?;
    print_margins(contents.agents, margins, buffer)
}

// Judges the division that stands behind the sheet of `text`, prints the margins into the lent buffer and answers the length printed, or answers
// the first reason to turn the text down and leaves the buffer as it is.
#[tactic(auto, using(crate::proofs::FrontJudged::reasons))]
pub fn judge_division(text: &[u8], buffer: &mut [u8]) -> Result<usize, Refusal>
    ensures answer { answer_of result ≡ map_answer length (judgement_from text.now (length buffer.old)) }
    ensures buffer { buffer.new ≡ after filled (judgement_from text.now (length buffer.old)) buffer.old }
{
    let (contents, behind) = reading::read_front(text)?;
    let Contents { agents, items, .. } = contents;
    let stated = read_division(text, behind, Sheet { agents, items });
    print_judged(contents, stated, buffer)
}
