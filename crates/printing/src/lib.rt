// Printing the division of a sheet into a lent buffer (document 01, "The printed division"). Its meaning stands in specs/.
#![tactic(auto)]

ghost use Rattle.std.specs.Prelude.{◌≡◌, length};
ghost use Rattle.sheet.specs.Limits.{CountsWithin};
ghost use Rattle.sheet.specs.Answers.{map_answer, after};
ghost use Rattle.sheet.specs.Refusals.{answer_of};
ghost use Rattle.writing.specs.Filled.{filling, filled};
ghost use Rattle.rounds.specs.Division.{division_by_rounds};
ghost use Rattle.division.specs.Stored.{stored};
ghost use Rattle.printing.specs.Printed.{printed};
ghost use Rattle.printing.specs.Printing.{printing};

use division::{Division, divide};
use printed_division::put_division;
use sheet::refusal::Refusal;
use sheet::{Contents, Sheet};
use writing::{Writer, fill};

// The most bytes of the head.
const LONGEST_HEAD: usize = 43;

// The most bytes of a pile.
const LONGEST_PILE: usize = 7 + 3 * Sheet::ITEMS;

// The most bytes of a cut.
const LONGEST_CUT: usize = 6 + 3 * Sheet::AGENTS + 3 * Sheet::ITEMS;

// The most bytes of the line of one agent.
const LONGEST_YARD: usize = 27 + 2 * Sheet::SUM_DIGITS + LONGEST_PILE + LONGEST_CUT;

// The most bytes of the line of the cutters.
const LONGEST_CUTTERS: usize = 10 + 2 * Sheet::AGENTS;

// A buffer of so many bytes is long enough for every division: the head, a line for each agent, the cutters, and the last line.
pub const LONGEST: usize = LONGEST_HEAD + Sheet::AGENTS * LONGEST_YARD + LONGEST_CUTTERS + 6;

// Prints the division of a sheet, which is taken by value: then its marks are bounded by their type, and so is the text. Refused with 10
// where the buffer is shorter than the text.
fn print_outcome(
    contents: Contents,
    division: Division,
    buffer: &mut [u8],
) -> Result<usize, Refusal>
    requires { CountsWithin contents.agents contents.items × (division ≡ stored (division_by_rounds contents)) }
    ensures answer { answer_of result ≡ map_answer length (filling (length buffer.old) (printed contents (division_by_rounds contents))) }
    ensures buffer { buffer.new ≡ after filled (filling (length buffer.old) (printed contents (division_by_rounds contents))) buffer.old }
{
    let mut text = [0u8; LONGEST];
    let mut writer = Writer::new(&mut text);
    put_division(&mut writer, contents.agents, contents.items, division);
    fill(writer.written(), buffer)
}

// Divides a sheet with an allowance and prints the division from the front of the buffer. Refused as by
// `divide`, else with 10 where the buffer is shorter than the text; then the buffer keeps all its bytes.
pub fn print_division(
    contents: Contents,
    allowance: u32,
    buffer: &mut [u8],
) -> Result<usize, Refusal>
    ensures answer { answer_of result ≡ map_answer length (printing contents allowance (length buffer.old)) }
    ensures buffer { buffer.new ≡ after filled (printing contents allowance (length buffer.old)) buffer.old }
{
    let division = divide(contents, allowance)?;
    print_outcome(contents, division, buffer)
}
