// From a text to the strict layout for callers in C or Rust, by C's calling convention.
#![tactic(auto)]

ghost use Rattle.std.specs.Prelude.{◌≡◌};
ghost use Rattle.std.proofs.Math.ListN;
ghost use Rattle.sheet.specs.Answers.{number_of, after};
ghost use Rattle.writing.specs.Answered.{length_stored};
ghost use Rattle.writing.specs.Filled.{filled};
ghost use Rattle.sheet_to_strict.specs.Rewriting.{rewriting};

use sheet::refusal::numbered;

// Writes the strict text of the sheet that `text` holds into the lent buffer, stores the length written and answers 0; or answers the
// number of the refusal and leaves the buffer and the length as they are.
#[unsafe(no_mangle)]
pub extern "C" fn strict_text(text: &[u8], buffer: &mut [u8], length: &mut usize) -> u8
    ensures number { result ≡ number_of (rewriting text.now (ListN.length buffer.old)) }
    ensures buffer { buffer.new ≡ after filled (rewriting text.now (ListN.length buffer.old)) buffer.old }
    ensures length { length.new ≡ after length_stored (rewriting text.now (ListN.length buffer.old)) length.old }
{
    let answer = sheet_to_strict::write_strict(text, buffer);
    reply::store_length(numbered(answer), length)
}
