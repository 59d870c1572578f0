// From a sheet to its division for callers in C or Rust, by C's calling convention.
#![tactic(auto)]

ghost use Rattle.std.specs.Prelude.{◌≡◌};
ghost use Rattle.std.proofs.Math.ListN;
ghost use Rattle.sheet.specs.Answers.{number_of, after};
ghost use Rattle.writing.specs.Answered.{length_stored};
ghost use Rattle.writing.specs.Filled.{filled};
ghost use Rattle.sheet_to_division.specs.ShareOut.{share_out};

use sheet::refusal::numbered;

// Prints the division of the sheet that `text` holds, with an allowance for cutting, into the lent buffer, stores the length printed and
// answers 0; or answers the number of the refusal and leaves the buffer and the length as they are.
#[unsafe(no_mangle)]
pub extern "C" fn shareout_text(
    text: &[u8],
    allowance: u32,
    buffer: &mut [u8],
    length: &mut usize,
) -> u8
    ensures number { result ≡ number_of (share_out text.now allowance (ListN.length buffer.old)) }
    ensures buffer { buffer.new ≡ after filled (share_out text.now allowance (ListN.length buffer.old)) buffer.old }
    ensures length { length.new ≡ after length_stored (share_out text.now allowance (ListN.length buffer.old)) length.old }
{
    let answer = sheet_to_division::share_out(text, allowance, buffer);
    reply::store_length(numbered(answer), length)
}
