// Reading the numbers that a division states at any place of a text: counts and grade in its head, worth and share in a yard line.
#![tactic(auto)]

ghost use Rattle.std.specs.Prelude.{◌≡◌};
ghost use Rattle.tokeniser.specs.Places.{tokens_at};
ghost use Rattle.lexing.specs.Results.{number_from};
ghost use Rattle.division_numbers.specs.Numbers.{stated_amounts, division_head};
ghost use Rattle.division_numbers.specs.Results.{amounts_from};

use lexing::forms::{follow, follow_number, number_after};
use sheet::Sheet;
use sheet_lines::forms::{BEFORE_ITEMS, LINE_END};
use tokeniser::Cursor;

// (division (yards 2) (pieces 3) (grade 3))
const BEFORE_COUNTS: [u8; 16] = *b"(division (yards";

const BEFORE_GRADE: [u8; 8] = *b") (grade";

// (worth 5) (share 5) (cut
const BEFORE_WORTH: [u8; 6] = *b"(worth";

const BEFORE_SHARE: [u8; 8] = *b") (share";

const BEFORE_CUT: [u8; 6] = *b") (cut";

// The digits of a grade.
const GRADE_DIGITS: usize = 1;

// A worth, a share, and the place after them: (worth 5) (share 5) (cut
pub fn read_amounts(s: &[u8], c: Cursor) -> Option<(u64, u64, Cursor)>
    ensures { result ≡ amounts_from s.now c (stated_amounts (tokens_at s.now c)) }
{
    let (worth, c1) = number_after(s, c, &BEFORE_WORTH, Sheet::SUM_DIGITS)?;
    let (share, c2) = number_after(s, c1, &BEFORE_SHARE, Sheet::SUM_DIGITS)?;
    let next = follow(s, c2, &BEFORE_CUT)?;
    Some((worth, share, next))
}

// The grade, and the place after the head that repeats the counts of the sheet: (division (yards 2) (pieces 3) (grade 3))
pub fn read_head(s: &[u8], c: Cursor, sheet: Sheet) -> Option<(u64, Cursor)>
    ensures { result ≡ number_from s.now c (division_head sheet.agents sheet.items (tokens_at s.now c)) }
{
    let c1 = follow_number(s, c, &BEFORE_COUNTS, Sheet::COUNT_DIGITS, sheet.agents)?;
    let c2 = follow_number(s, c1, &BEFORE_ITEMS, Sheet::COUNT_DIGITS, sheet.items)?;
    let (grade, c3) = number_after(s, c2, &BEFORE_GRADE, GRADE_DIGITS)?;
    let next = follow(s, c3, &LINE_END)?;
    Some((grade, next))
}
