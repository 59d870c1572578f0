// The lines of the yards of a division.
ghost use Rattle.std.specs.Prelude.{◌≡◌};
ghost use Rattle.tokeniser.specs.Places.{tokens_at};
ghost use Rattle.bundle_reading.specs.Results.{bundle_from};
ghost use Rattle.division_reading.specs.Grammar.{bundle_in_turn, cut_bundles, division_line, division_lines};
ghost use Rattle.division_reading.specs.internal.Results.{cut_from, line_from, lines_from};

use crate::StatedLine;
use crate::forms::{BEFORE_CUT_PILE, BEFORE_PILE};
use bundle_reading::bundle_after;
use division_numbers::read_amounts;
use lexing::forms::{follow, follow_number};
use sheet::limited::Limited;
use sheet::{Sets, Sheet};
use sheet_lines::forms::{BEFORE_TURN, LINE_END};
use tokeniser::Cursor;

// (yard 1 (pile 1)
fn bundle_in_turn(s: &[u8], c: Cursor, turn: usize, counts: Limited) -> Option<(u16, Cursor)>
    ensures { result ≡ bundle_from s.now c (bundle_in_turn counts.items turn (tokens_at s.now c)) }
{
    let next = follow_number(s, c, &BEFORE_TURN, Sheet::COUNT_DIGITS, turn)?;
    bundle_after(s, next, &BEFORE_PILE, counts.items)
}

// As many bundles of a cut as there are agents, and the place after them.
fn read_cut(s: &[u8], c: Cursor, counts: Limited) -> Option<(Sets, Cursor)>
    ensures { result ≡ cut_from s.now c (cut_bundles counts.agents counts.items (tokens_at s.now c)) }
{
    let mut sets: Sets = [0; Sheet::AGENTS];
    let mut here = c;
    for k in 0..counts.agents {
        let (set, next) = bundle_after(s, here, &BEFORE_CUT_PILE, counts.items)?;
        sets[k] = set;
        here = next;
    }
    Some((sets, here))
}

// (yard 1 (pile 1) (worth 5) (share 5) (cut (1) (2 3))), and the place after it.
fn division_line(s: &[u8], c: Cursor, turn: usize, counts: Limited) -> Option<(StatedLine, Cursor)>
    ensures { result ≡ line_from s.now c (division_line counts.agents counts.items turn (tokens_at s.now c)) }
{
    let (bundle, c1) = bundle_in_turn(s, c, turn, counts)?;
    let (worth, share, c2) = read_amounts(s, c1)?;
    let (cut, c3) = read_cut(s, c2, counts)?;
    let next = follow(s, c3, &LINE_END)?;
    let line = StatedLine {
        bundle,
        worth,
        share,
        cut,
    };
    Some((line, next))
}

// The lines of the yards, from yard 1 upward, and the place after them.
pub(crate) fn division_lines(
    s: &[u8],
    c: Cursor,
    counts: Limited,
) -> Option<([StatedLine; Sheet::AGENTS], Cursor)>
    ensures { result ≡ lines_from s.now c (division_lines counts.agents counts.items (tokens_at s.now c)) }
{
    let mut lines = [StatedLine::BLANK; Sheet::AGENTS];
    let mut here = c;
    for k in 0..counts.agents {
        let (line, next) = division_line(s, here, k + 1, counts)?;
        lines[k] = line;
        here = next;
    }
    Some((lines, here))
}
