// Cutting for callers in C or Rust: numbers and places that the caller lends, by C's calling convention.
#![tactic(auto)]

ghost use Rattle.std.specs.Prelude.{◌≡◌};
ghost use Rattle.sheet.specs.Answers.{after};
ghost use Rattle.cut.specs.Outcome.{cutting};
ghost use Rattle.cut_c.specs.Lent.{kind_of, store_figure, store_partition, store_count};

use cut::Figure;
use sheet::{Row, Sheet};

// What a cut that its allowance stopped answers: no refusal has this number.
const STOPPED: u8 = 255;

// Cuts the items of `set`, valued by `marks`, into `bundles` bundles, and may look at `allowance` growth partitions. Answers 0 and stores
// the share, or answers 255 where the allowance stopped it and stores the best least bundle, each with the partition that reaches it and
// the number of growth partitions; or answers the number of the reason why the cut is refused and stores nothing.
#[unsafe(no_mangle)]
pub extern "C" fn cut_row(
    marks: &Row,
    set: u16,
    bundles: usize,
    allowance: u32,
    figure: &mut u64,
    partition: &mut [u8; Sheet::ITEMS],
    count: &mut u32,
) -> u8
    ensures kind { result ≡ kind_of (cutting marks.now set bundles allowance) }
    ensures figure { figure.new ≡ after store_figure (cutting marks.now set bundles allowance) figure.old }
    ensures partition { partition.new ≡ after store_partition (cutting marks.now set bundles allowance) partition.old }
    ensures count { count.new ≡ after store_count (cutting marks.now set bundles allowance) count.old }
{
    match cut::cut(*marks, set, bundles, allowance) {
        Ok(found) => {
            // By a variable: no proof is made where an array field is stored straight.
            let reached = found.partition;
            *partition = reached;
            *count = found.count;
            match found.figure {
                Figure::Share(share) => {
                    *figure = share;
                    0
                }
                Figure::Stopped(least) => {
                    *figure = least;
                    STOPPED
                }
            }
        }
        Err(refusal) => refusal.number(),
    }
}
