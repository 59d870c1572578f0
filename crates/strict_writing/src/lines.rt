// The lines of a strict text, one behind the other, token by token, by a writer over a lent buffer.
ghost use Rattle.std.specs.Prelude.{take};
ghost use Rattle.text.specs.Decimal.{spaced_numbers};
ghost use Rattle.writing.specs.WithText.{Writes};
ghost use Rattle.strict_text.specs.StrictText.{head_text, yard_text, yard_texts, rows_in_use, strict_text};

use sheet::{Contents, Mark, Row};
use sheet_lines::forms::{
    BEFORE_AGENTS, BEFORE_ITEMS, BEFORE_MARKS, BEFORE_TURN, LAST_LINE, LINE_END,
};
use writing::Writer;

// The head: the counts.
fn put_head(writer: &mut Writer, agents: usize, items: usize)
    ensures { Writes writer.old (head_text agents items) writer.new }
{
    writer.bytes(&BEFORE_AGENTS);
    writer.spaced_number(agents as u64);
    writer.bytes(&BEFORE_ITEMS);
    writer.spaced_number(items as u64);
    writer.bytes(&LINE_END);
}

// Marks of one agent, by a writer of their own: its place is stored once.
fn put_marks(writer: &mut Writer, marks: &[Mark])
    ensures { Writes writer.old (spaced_numbers marks.now) writer.new }
{
    let mut line = Writer {
        buffer: &mut *writer.buffer,
        at: writer.at,
    };
    for mark in marks {
        line.spaced_number(u64::from(*mark));
    }
    writer.at = line.at;
}

// The line of one agent: its number and its marks.
fn put_yard(writer: &mut Writer, agent: usize, marks: Row, items: usize)
    ensures { Writes writer.old (yard_text agent (take items marks)) writer.new }
{
    writer.bytes(&BEFORE_TURN);
    writer.spaced_number(agent as u64);
    writer.bytes(b" ");
    writer.bytes(&BEFORE_MARKS);
    put_marks(writer, &marks[..items.min(marks.len())]);
    writer.bytes(&LINE_END);
}

// The lines of the agents.
fn put_yards(writer: &mut Writer, contents: Contents)
    ensures { Writes writer.old (yard_texts 1 (rows_in_use contents.agents contents.items contents.table)) writer.new }
{
    let agents = contents.agents.min(contents.table.len());
    for (i, marks) in contents.table[..agents].iter().enumerate() {
        put_yard(writer, i + 1, *marks, contents.items);
    }
}

// The whole strict text of a sheet.
pub fn put_sheet(writer: &mut Writer, contents: Contents)
    ensures { Writes writer.old (strict_text contents) writer.new }
{
    put_head(writer, contents.agents, contents.items);
    put_yards(writer, contents);
    writer.bytes(&LAST_LINE);
}
