// Reading a division, as members bring it, at a place of a text: all that it states, or that it is off the layout.
#![tactic(auto)]

ghost use Rattle.std.specs.Prelude.{◌≡◌};
ghost use Rattle.tokeniser.specs.Places.{tokens_at};
ghost use Rattle.division_reading.specs.Grammar.{reading_division};
ghost use Rattle.division_reading.specs.Outcome.{kept};

use division_numbers::read_head;
use sheet::limited::Limited;
use sheet::{Sets, Sheet};
use sheet_lines::end::end_of_text;
use tokeniser::Cursor;

pub mod forms;
mod lines;

// What the line of one agent (yard) states: its bundle (pile), the value (worth) of that, its share, and its cut.
#[derive(Clone, Copy)]
pub struct StatedLine {
    pub bundle: u16,
    pub worth: u64,
    pub share: u64,
    pub cut: Sets,
}

impl StatedLine {
    // A line that is not in use.
    const BLANK: StatedLine = StatedLine {
        bundle: 0,
        worth: 0,
        share: 0,
        cut: [0; Sheet::AGENTS],
    };
}

// What a division states.
#[derive(Clone, Copy)]
pub struct Stated {
    pub grade: u8,
    pub lines: [StatedLine; Sheet::AGENTS],
}

// The division that stands at a place of a text and ends it, of a sheet with these counts.
pub fn read_division(s: &[u8], c: Cursor, sheet: Sheet) -> Option<Stated>
    ensures { result ≡ kept (reading_division sheet.agents sheet.items (tokens_at s.now c)) }
{
    if Sheet::AGENTS < sheet.agents || Sheet::ITEMS < sheet.items {
        return None;
    }
    let Sheet { agents, items } = sheet;
    let counts = Limited { agents, items };
    let (grade, first) = read_head(s, c, sheet)?;
    let (lines, last) = lines::division_lines(s, first, counts)?;
    let _end = end_of_text(s, last)?;
    Some(Stated {
        grade: grade as u8,
        lines,
    })
}
