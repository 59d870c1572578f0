// Printing an exact division of a sheet, or the word none, into a lent buffer (document 02, order 4). Its meaning stands in specs/.
#![tactic(auto)]

ghost use Rattle.std.specs.Prelude.{◌≡◌, ◌≤◌, length};
ghost use mathlib.Core.List.{flat_map};
ghost use Rattle.lists.specs.Lists.{range};
ghost use Rattle.sheet.specs.Limits.{most_agents};
ghost use Rattle.sheet.specs.Answers.{map_answer, after};
ghost use Rattle.sheet.specs.Refusals.{answer_of};
ghost use Rattle.writing.specs.Filled.{filling, filled};
ghost use Rattle.writing.specs.WithText.{Writes};
ghost use Rattle.exact_printing.specs.Printing.{longest_exact, Printed};
ghost use Rattle.exact_printing.specs.internal.SetsText.{set_group, sets_text};

use exact_search::find_exact;
use sheet::naming::items_of;
use sheet::refusal::Refusal;
use sheet::{Contents, Sets, Sheet};
use writing::{Writer, fill};

// A buffer of so many bytes is long enough for every sheet: (exact) and the line feed, a space and () for each agent, and at most three
// bytes for each item.
pub const LONGEST: usize = 8 + 3 * Sheet::AGENTS + 3 * Sheet::ITEMS;

// The bundles of the agents in turn, each behind a space.
fn put_bundles(writer: &mut Writer, agents: usize, bundles: Sets)
    requires { agents ≤ most_agents }
    ensures { Writes writer.old (flat_map (set_group bundles) (range 1 agents)) writer.new }
{
    for set in &bundles[..agents] {
        let bundle = items_of(*set);
        writer.byte(b' ');
        writer.group(bundle.as_slice());
    }
}

// The whole text of an exact division.
fn put_exact(writer: &mut Writer, agents: usize, bundles: Sets)
    requires { agents ≤ most_agents }
    ensures { Writes writer.old (sets_text agents bundles) writer.new }
{
    writer.bytes(b"(exact");
    put_bundles(writer, agents, bundles);
    writer.bytes(b")\n");
}

// Prints the bundles of an exact division; refused with 10 where the buffer is shorter than the text.
fn print_bundles(agents: usize, bundles: Sets, buffer: &mut [u8]) -> Result<usize, Refusal>
    requires { (agents ≤ most_agents) × (length (sets_text agents bundles) ≤ longest_exact) }
    ensures answer { answer_of result ≡ map_answer length (filling (length buffer.old) (sets_text agents bundles)) }
    ensures buffer { buffer.new ≡ after filled (filling (length buffer.old) (sets_text agents bundles)) buffer.old }
{
    let mut text = [0u8; LONGEST];
    let mut writer = Writer::new(&mut text);
    put_exact(&mut writer, agents, bundles);
    fill(writer.written(), buffer)
}

// Searches a sheet for an exact division and prints it, or the word none, from the front of the buffer. Refused
// as by `find_exact`, else with 10 where the buffer is shorter than the text; then the buffer keeps all its bytes.
pub fn print_exact(contents: Contents, buffer: &mut [u8]) -> Result<usize, Refusal>
    ensures { Printed contents buffer.old (answer_of result) buffer.new }
{
    let exact = find_exact(contents)?;
    match exact {
        Some(bundles) => print_bundles(contents.agents, bundles, buffer),
        None => fill(b"(exact none)\n", buffer),
    }
}
