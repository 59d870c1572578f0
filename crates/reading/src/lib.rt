// Reading a sheet of marks from bytes: the reason to turn it down, or the counts and the table of marks.
#![tactic(auto)]

ghost use Rattle.std.specs.Prelude.{◌≡◌};
ghost use Rattle.sheet.specs.Limits.{mark_limits};
ghost use Rattle.sheet.specs.Answers.{map_answer};
ghost use Rattle.sheet.specs.Refusals.{answer_of};
ghost use Rattle.reading.specs.Reading.{reading, reading_front};
ghost use Rattle.reading.specs.Stored.{stored_front};
ghost use Rattle.reading.specs.internal.BeforeEnd.{lines_before_end, stored_lines};

use sheet::refusal::Refusal;
use sheet::{Contents, Sheet, agents_allowed, items_allowed};
use sheet_lines::body::{Body, read_body};
use sheet_lines::end::{end_line, end_of_text};
use sheet_lines::head::read_head;
use tokeniser::Cursor;

// The first reason to turn a text down before the line `(end)`, or what stands before that line: the counts, what the lines of the yards
// give, and the place after them.
fn before_end(text: &[u8]) -> Result<(Sheet, Body, Cursor), Refusal>
    ensures { answer_of result ≡ map_answer (stored_lines text.now) (lines_before_end mark_limits text.now) }
{
    if Sheet::LONGEST_TEXT < text.len() {
        return Err(Refusal::TextTooLong);
    }
    if text.is_empty() {
        return Err(Refusal::TextEmpty);
    }
    let (sheet, first) = read_head(text, Cursor::start()).ok_or(Refusal::HeadMalformed)?;
    if !agents_allowed(sheet.agents) {
        return Err(Refusal::AgentsOutside);
    }
    if !items_allowed(sheet.items) {
        return Err(Refusal::ItemsOutside);
    }
    let (lines, last) = read_body(text, first, sheet).ok_or(Refusal::YardLineMalformed)?;
    Ok((sheet, lines, last))
}

// The first reason to turn a text down, or the sheet that it holds.
pub fn read(text: &[u8]) -> Result<Contents, Refusal>
    ensures { answer_of result ≡ reading text.now }
{
    let (counts, lines, last) = before_end(text)?;
    end_of_text(text, last).ok_or(Refusal::EndMalformed)?;
    if !lines.allowed {
        return Err(Refusal::MarkTooGreat);
    }
    let table = lines.table;
    let Sheet { agents, items } = counts;
    Ok(Contents {
        agents,
        items,
        table,
    })
}

// The same of a text that goes on behind the line `(end)` of its sheet, and the place where it does.
pub fn read_front(text: &[u8]) -> Result<(Contents, Cursor), Refusal>
    ensures { answer_of result ≡ map_answer (stored_front text.now) (reading_front text.now) }
{
    let (counts, lines, last) = before_end(text)?;
    let next = end_line(text, last).ok_or(Refusal::EndMalformed)?;
    if !lines.allowed {
        return Err(Refusal::MarkTooGreat);
    }
    let table = lines.table;
    let Sheet { agents, items } = counts;
    let contents = Contents {
        agents,
        items,
        table,
    };
    Ok((contents, next))
}
