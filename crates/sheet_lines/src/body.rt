// The lines between the first line of a sheet and the line `(end)`.
ghost use Rattle.std.specs.Prelude.{min, ◌≡◌};
ghost use Rattle.sheet.specs.Limits.{most_agents, most_items, mark_digits};
ghost use Rattle.tokeniser.specs.Places.{tokens_at};
ghost use Rattle.sheet_lines.specs.Grammar;
ghost use Rattle.sheet_lines.specs.Results.{body_from};

use crate::yards::yard_line;
use sheet::{Sheet, Table};
use tokeniser::Cursor;

// What the lines give: whether all marks are allowed, and the table of the marks, those that are not allowed reduced.
#[derive(Clone, Copy)]
pub struct Body {
    pub allowed: bool,
    pub table: Table,
}

// The lines between the first line and the line `(end)` of a sheet with these counts, of no more than a sheet may have: what they give,
// and the place after them.
pub fn read_body(s: &[u8], c: Cursor, counts: Sheet) -> Option<(Body, Cursor)>
    ensures { result ≡ body_from s.now c (Grammar.body mark_digits (min counts.agents most_agents) (min counts.items most_items) (tokens_at s.now c)) }
{
    let agents = counts.agents.min(Sheet::AGENTS);
    let items = counts.items.min(Sheet::ITEMS);
    let mut table = Sheet::blank();
    let mut allowed = true;
    let mut here = c;
    for k in 0..agents {
        let (line, next) = yard_line(s, here, k + 1, items)?;
        let row = line.row;
        table[k] = row;
        allowed &= line.allowed;
        here = next;
    }
    Some((Body { allowed, table }, here))
}
