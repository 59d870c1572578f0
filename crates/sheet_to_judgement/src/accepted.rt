// The printed answer to a division that is accepted.
ghost use Rattle.std.specs.Prelude.{◌≡◌, ◌≤◌, length};
ghost use mathlib.Core.List.{flat_map};
ghost use Rattle.lists.specs.Lists.{range};
ghost use Rattle.sheet.specs.Limits.{most_agents};
ghost use Rattle.sheet.specs.Answers.{map_answer, after};
ghost use Rattle.sheet.specs.Refusals.{answer_of};
ghost use Rattle.writing.specs.Filled.{filling, filled};
ghost use Rattle.writing.specs.WithText.{Writes};
ghost use Rattle.sheet_to_judgement.specs.internal.MarginsText.{spaced_margin, margins_text};

use margins::Margins;
use sheet::Sheet;
use sheet::refusal::Refusal;
use writing::{Writer, fill};

// The most digits of a margin: a whole number of 64 bits has no more.
const MARGIN_DIGITS: usize = 19;

// A buffer of so many bytes is long enough for every text: (accepted (margins)) and the line feed, and a space, a sign and the digits of a
// margin for each agent.
pub const LONGEST: usize = 21 + Sheet::AGENTS * (2 + MARGIN_DIGITS);

// The margins of the agents in turn, each behind a space.
fn put_margins(writer: &mut Writer, agents: usize, margins: Margins)
    requires { agents ≤ most_agents }
    ensures { Writes writer.old (flat_map (spaced_margin margins) (range 1 agents)) writer.new }
{
    for margin in &margins[..agents] {
        writer.byte(b' ');
        writer.signed(*margin);
    }
}

// The whole text.
fn put_accepted(writer: &mut Writer, agents: usize, margins: Margins)
    requires { agents ≤ most_agents }
    ensures { Writes writer.old (margins_text agents margins) writer.new }
{
    writer.bytes(b"(accepted (margins");
    put_margins(writer, agents, margins);
    writer.bytes(b"))\n");
}

// Prints the margins of the agents; refused with 10 where the buffer is shorter than the text.
pub(crate) fn print_margins(
    agents: usize,
    margins: Margins,
    buffer: &mut [u8],
) -> Result<usize, Refusal>
    requires { agents ≤ most_agents }
    ensures answer { answer_of result ≡ map_answer length (filling (length buffer.old) (margins_text agents margins)) }
    ensures buffer { buffer.new ≡ after filled (filling (length buffer.old) (margins_text agents margins)) buffer.old }
{
    let mut text = [0u8; LONGEST];
    let mut writer = Writer::new(&mut text);
    put_accepted(&mut writer, agents, margins);
    fill(writer.written(), buffer)
}
