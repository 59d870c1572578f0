// Whether the worth, the share and the cut of each line are true, and the grade.
#![tactic(auto)]

ghost use Rattle.std.specs.Prelude.{◌≡◌, map, ◌≤◌, min, leb, take};
ghost use Rattle.sheet.specs.Limits.{most_agents, most_items, InUse};
ghost use Rattle.sheet.specs.Sets.{items_of};
ghost use Rattle.stated_truth.specs.Lines.{stated_line, least_to, line_true_to, lines_true, figures_true_by};

use division_reading::{Stated, StatedLine};
use grade_amounts::value_in_use;
use sheet::amounts::Amounts;
use sheet::{Contents, Row, Sets, Sheet, Table};

// Whether no bundle of a cut is worth less than the share.
fn cut_reaches(valuation: Row, agents: usize, items: usize, cut: Sets, share: u64) -> bool
    requires { InUse agents items }
    ensures { result ≡ leb share (least_to agents items valuation (map items_of (take agents cut))) }
{
    cut[..agents]
        .iter()
        .all(|bundle| value_in_use(valuation, *bundle, items) >= share)
}

// Whether the line of an agent with this valuation, this share and a bundle of this worth is true.
fn line_true(
    valuation: Row,
    agents: usize,
    items: usize,
    share: u64,
    worth: u64,
    line: StatedLine,
) -> bool
    requires { InUse agents items }
    ensures { result ≡ line_true_to agents items valuation share worth (stated_line agents line) }
{
    line.worth == worth
        && line.share == share
        && cut_reaches(valuation, agents, items, line.cut, share)
}

// Whether the lines of the first `agents` agents are true, by the table, their shares and the worths of their bundles.
fn lines_true(
    table: Table,
    agents: usize,
    items: usize,
    shares: Amounts,
    worths: Amounts,
    lines: [StatedLine; Sheet::AGENTS],
) -> bool
    requires { (agents ≤ most_agents) × (items ≤ most_items) }
    ensures { result ≡ lines_true agents items table shares worths lines }
{
    (0..agents).all(|i| line_true(table[i], agents, items, shares[i], worths[i], lines[i]))
}

// Whether all lines of a division are true, and the grade that it states is the grade; both counts are cut to the limits of a sheet.
pub fn figures_true(
    contents: Contents,
    shares: Amounts,
    worths: Amounts,
    grade: u8,
    stated: Stated,
) -> bool
    ensures { result ≡ figures_true_by (min contents.agents most_agents) (min contents.items most_items) contents.table shares worths stated.lines grade stated.grade }
{
    let last = contents.agents.min(Sheet::AGENTS);
    let counted = contents.items.min(Sheet::ITEMS);
    lines_true(contents.table, last, counted, shares, worths, stated.lines) && stated.grade == grade
}
