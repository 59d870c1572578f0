// The line of one yard.
ghost use Rattle.std.specs.Prelude.{◌≤◌, ◌≡◌};
ghost use Rattle.sheet.specs.Limits.{most_items, mark_digits};
ghost use Rattle.tokeniser.specs.Places.{tokens_at};
ghost use Rattle.lexing.specs.Results.{place_after};
ghost use Rattle.sheet_lines.specs.Grammar.{marks, yard_turn, yard_line};
ghost use Rattle.sheet_lines.specs.internal.Results.{marks_from};

use crate::forms::{BEFORE_MARKS, BEFORE_TURN, LINE_END};
use lexing::forms::{follow, follow_number, read_number};
use sheet::{Mark, Row, Sheet};
use tokeniser::Cursor;

// How many marks there are that are allowed.
const MARK_VALUES: u64 = Sheet::GREATEST_MARK + 1;

// What the marks of one line give: whether all of them are allowed, and the row of them, those that are not allowed reduced.
#[derive(Clone, Copy)]
pub struct Line {
    pub allowed: bool,
    pub row: Row,
}

// As many marks as there are pieces, and the place after them.
fn read_marks(s: &[u8], c: Cursor, items: usize) -> Option<(Line, Cursor)>
    requires { items ≤ most_items }
    ensures { result ≡ marks_from s.now c (marks mark_digits items (tokens_at s.now c)) }
{
    let mut row: Row = [0; Sheet::ITEMS];
    let mut allowed = true;
    let mut here = c;
    for k in 0..items {
        let (mark, next) = read_number(s, here, Sheet::MARK_DIGITS)?;
        row[k] = (mark % MARK_VALUES) as Mark;
        allowed &= mark <= Sheet::GREATEST_MARK;
        here = next;
    }
    Some((Line { allowed, row }, here))
}

// The place after `(yard`, the number `turn` and `(marks`.
fn yard_in_turn(s: &[u8], c: Cursor, turn: usize) -> Option<Cursor>
    ensures { result ≡ place_after s.now c (yard_turn turn (tokens_at s.now c)) }
{
    let next = follow_number(s, c, &BEFORE_TURN, Sheet::COUNT_DIGITS, turn)?;
    follow(s, next, &BEFORE_MARKS)
}

// (yard 1 (marks 5 3 4))
pub(crate) fn yard_line(s: &[u8], c: Cursor, turn: usize, items: usize) -> Option<(Line, Cursor)>
    requires { items ≤ most_items }
    ensures { result ≡ marks_from s.now c (yard_line mark_digits items turn (tokens_at s.now c)) }
{
    let c1 = yard_in_turn(s, c, turn)?;
    let (line, c2) = read_marks(s, c1, items)?;
    let c3 = follow(s, c2, &LINE_END)?;
    Some((line, c3))
}
