// The text of a division, line behind line, by a writer over a lent buffer.
#![tactic(auto)]

ghost use mathlib.Core.List.{flat_map};
ghost use Rattle.std.specs.Prelude.{min};
ghost use Rattle.lists.specs.Lists.{range};
ghost use Rattle.sheet.specs.Limits.{most_agents, most_items};
ghost use Rattle.writing.specs.WithText.{Writes};
ghost use Rattle.printed_division.specs.OutcomeText.{outcome_line, outcome_text};

use division::Division;
use printed_lines::{put_cutters, put_head, put_yard};
use sheet::limited::Limited;
use writing::Writer;

// The lines of all agents.
fn put_yards(writer: &mut Writer, counts: Limited, division: Division)
    ensures { Writes writer.old (flat_map (outcome_line counts.agents counts.items division.bundles division.worths division.shares division.cuts) (range 1 counts.agents)) writer.new }
{
    for i in 0..counts.agents {
        put_yard(
            writer,
            counts.agents,
            counts.items,
            i + 1,
            division.bundles[i],
            division.worths[i],
            division.shares[i],
            division.cuts[i],
        );
    }
}

// The whole text of a division, for these counts; counts beyond the limits are cut to them.
pub fn put_division(writer: &mut Writer, agents: usize, items: usize, division: Division)
    ensures { Writes writer.old (outcome_text (min agents most_agents) (min items most_items) division) writer.new }
{
    let counts = Limited::of(agents, items);
    put_head(writer, counts.agents, counts.items, division.grade);
    put_yards(writer, counts, division);
    put_cutters(writer, division.cutters);
    writer.bytes(b"(end)\n");
}
