// The cut of one agent in its line.
ghost use mathlib.Core.List.{flat_map};
ghost use Rattle.writing.specs.WithText.{Writes};
ghost use Rattle.bundling.specs.Bundles.{all_bundles};
ghost use Rattle.printed_lines.specs.PrintedLines.{cut_pile, cut_group};

use bundling::bundle_of;
use cut::Partition;
use sheet::limited::Limited;
use sheet::naming::all_items;
use writing::Writer;

// The bundles of a cut, each behind a space.
fn put_bundles(writer: &mut Writer, counts: Limited, partition: Partition)
    ensures { Writes writer.old (flat_map cut_pile (all_bundles counts.agents counts.items partition)) writer.new }
{
    let set = all_items(counts.items);
    for i in 0..counts.agents {
        let bundle = bundle_of(set, partition, i as u8 + 1);
        writer.byte(b' ');
        writer.group(bundle.as_slice());
    }
}

// The cut of one agent.
pub(crate) fn put_cut(writer: &mut Writer, counts: Limited, partition: Partition)
    ensures { Writes writer.old (cut_group (all_bundles counts.agents counts.items partition)) writer.new }
{
    writer.bytes(b" (cut");
    put_bundles(writer, counts, partition);
    writer.byte(b')');
}
