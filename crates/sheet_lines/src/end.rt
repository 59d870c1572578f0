// The last line of a sheet.
ghost use Rattle.std.specs.Prelude.{◌≡◌};
ghost use Rattle.tokeniser.specs.Places.{tokens_at};
ghost use Rattle.lexing.specs.Forms.{ended};
ghost use Rattle.lexing.specs.Results.{place_after};
ghost use Rattle.sheet_lines.specs.Grammar.{anything, end_line};

use crate::forms::LAST_LINE;
use lexing::forms::follow;
use tokeniser::{Cursor, ended};

// The place after the line `(end)`, whatever stands behind it.
pub fn end_line(s: &[u8], c: Cursor) -> Option<Cursor>
    ensures { result ≡ place_after s.now c (end_line anything (tokens_at s.now c)) }
{
    follow(s, c, &LAST_LINE)
}

// The place after the line `(end)`, where nothing stands behind it.
pub fn end_of_text(s: &[u8], c: Cursor) -> Option<Cursor>
    ensures { result ≡ place_after s.now c (end_line ended (tokens_at s.now c)) }
{
    let next = end_line(s, c)?;
    ended(s, next).then_some(next)
}
