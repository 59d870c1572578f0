// The judgement of a division that stands behind its sheet for callers in C or Rust, by C's calling convention.
#![tactic(auto)]

ghost use Rattle.std.specs.Prelude.{◌≡◌};
ghost use Rattle.std.proofs.Math.ListN;
ghost use Rattle.sheet.specs.Answers.{number_of, after};
ghost use Rattle.writing.specs.Answered.{length_stored};
ghost use Rattle.writing.specs.Filled.{filled};
ghost use Rattle.sheet_to_judgement.specs.TextJudged.{judgement_from};

use sheet::refusal::numbered;

// Prints the judgement of the division that stands behind the sheet of `text` into the lent buffer, stores the length printed and answers 0;
// or answers the number of the refusal and leaves the buffer and the length as they are.
#[unsafe(no_mangle)]
pub extern "C" fn judge_text(text: &[u8], buffer: &mut [u8], length: &mut usize) -> u8
    ensures number { result ≡ number_of (judgement_from text.now (ListN.length buffer.old)) }
    ensures buffer { buffer.new ≡ after filled (judgement_from text.now (ListN.length buffer.old)) buffer.old }
    ensures length { length.new ≡ after length_stored (judgement_from text.now (ListN.length buffer.old)) length.old }
{
    let answer = sheet_to_judgement::judge_division(text, buffer);
    reply::store_length(numbered(answer), length)
}
