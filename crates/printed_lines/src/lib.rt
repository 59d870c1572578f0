// The lines of the printed division, each written by a writer over a lent buffer.
#![tactic(auto)]

ghost use Rattle.std.specs.Prelude.{◌≡◌, ◌==◌, not, length, min};
ghost use Rattle.std.specs.List.{take_while};
ghost use Rattle.sheet.specs.Limits.{most_agents, most_items};
ghost use Rattle.sheet.specs.Sets.{items_of};
ghost use Rattle.bundling.specs.Bundles.{all_bundles};
ghost use Rattle.writing.specs.WithText.{Writes};
ghost use Rattle.printed_lines.specs.PrintedLines.{head_line, pile_group, worth_and_share, printed_yard, cutters_line};
ghost use Rattle.printed_lines.specs.BeforeZero.{before_zero};

use crate::cuts::put_cut;
use cut::Partition;
use sheet::Sheet;
use sheet::limited::Limited;
use sheet::naming::items_of;
use writing::Writer;

mod cuts;

// The head: the counts and the grade.
pub fn put_head(writer: &mut Writer, agents: usize, items: usize, grade: u8)
    ensures { Writes writer.old (head_line agents items grade) writer.new }
{
    writer.field(b"(division (yards ", agents as u64);
    writer.field(b") (pieces ", items as u64);
    writer.field(b") (grade ", u64::from(grade));
    writer.bytes(b"))\n");
}

// The bundle of one agent.
fn put_pile(writer: &mut Writer, pile: u16)
    ensures { Writes writer.old (pile_group (items_of pile)) writer.new }
{
    let bundle = items_of(pile);
    writer.bytes(b" (pile");
    writer.spaced(bundle.as_slice());
    writer.byte(b')');
}

// The worth of an agent's bundle, and its share.
fn put_amounts(writer: &mut Writer, worth: u64, share: u64)
    ensures { Writes writer.old (worth_and_share worth share) writer.new }
{
    writer.field(b" (worth ", worth);
    writer.field(b") (share ", share);
    writer.byte(b')');
}

// The line of one agent: its bundle, the worth of that, its share and its cut. Counts beyond the limits are cut to them.
pub fn put_yard(
    writer: &mut Writer,
    agents: usize,
    items: usize,
    agent: usize,
    pile: u16,
    worth: u64,
    share: u64,
    partition: Partition,
)
    ensures { Writes writer.old (printed_yard agent (items_of pile) worth share (all_bundles (min agents most_agents) (min items most_items) partition)) writer.new }
{
    writer.field(b"(yard ", agent as u64);
    put_pile(writer, pile);
    put_amounts(writer, worth, share);
    put_cut(writer, Limited::of(agents, items), partition);
    writer.bytes(b")\n");
}

// How many cutters stand before the first 0.
fn rounds_of(cutters: &[u8]) -> usize
    ensures { result ≡ length (take_while (λ c. not (c == 0)) cutters.now) }
{
    cutters.iter().take_while(|cutter| **cutter != 0).count()
}

// The cutter of each round in turn.
pub fn put_cutters(writer: &mut Writer, cutters: [u8; Sheet::AGENTS])
    ensures { Writes writer.old (cutters_line (before_zero cutters)) writer.new }
{
    let rounds = rounds_of(&cutters);
    writer.bytes(b"(cutters");
    writer.spaced(&cutters[..rounds]);
    writer.bytes(b")\n");
}
