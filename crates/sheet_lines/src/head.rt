// The first line of a sheet.
ghost use Rattle.std.specs.Prelude.{◌≡◌};
ghost use Rattle.tokeniser.specs.Places.{tokens_at};
ghost use Rattle.sheet_lines.specs.Grammar.{head};
ghost use Rattle.sheet_lines.specs.Results.{head_from};

use crate::forms::{BEFORE_AGENTS, BEFORE_ITEMS, LINE_END};
use lexing::forms::{follow, number_after};
use sheet::Sheet;
use tokeniser::Cursor;

// (sheet (yards 2) (pieces 3)): the counts, which may lie outside the limits, and the place after the line.
pub fn read_head(s: &[u8], c: Cursor) -> Option<(Sheet, Cursor)>
    ensures { result ≡ head_from s.now c (head (tokens_at s.now c)) }
{
    let (agents, c1) = number_after(s, c, &BEFORE_AGENTS, Sheet::COUNT_DIGITS)?;
    let (items, c2) = number_after(s, c1, &BEFORE_ITEMS, Sheet::COUNT_DIGITS)?;
    let c3 = follow(s, c2, &LINE_END)?;
    let counts = Sheet {
        agents: agents as usize,
        items: items as usize,
    };
    Some((counts, c3))
}
