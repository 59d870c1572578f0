// The search for an exact division for callers in C or Rust, by C's calling convention.
#![tactic(auto)]

ghost use Rattle.sheet.specs.Contents.{sheet_of};
ghost use Rattle.exact_c.specs.Lent.{TableStored, TextStored};

use sheet::refusal::numbered;
use sheet::{Contents, Sets, Sheet, Table};

// Searches the table of `agents` agents (yards) for an exact division. Answers 0 and stores in `found` 1 and in `bundles` each agent's bundle as
// a set of items, 0 after the last, or stores 0 in `found` and in all of `bundles` where there is none; or answers the number of the refusal and
// stores nothing.
#[unsafe(no_mangle)]
pub extern "C" fn exact_table(
    table: &Table,
    agents: usize,
    items: usize,
    found: &mut u8,
    bundles: &mut Sets,
) -> u8
    ensures { TableStored (sheet_of agents items table.now) found.old bundles.old result found.new bundles.new }
{
    let contents = Contents {
        agents,
        items,
        table: *table,
    };
    match exact_search::find_exact(contents) {
        Ok(Some(sets)) => {
            *found = 1;
            *bundles = sets;
            0
        }
        Ok(None) => {
            *found = 0;
            *bundles = [0; Sheet::AGENTS];
            0
        }
        Err(refusal) => refusal.number(),
    }
}

// Prints an exact division of the sheet that `text` holds, or the word none, into the lent buffer, stores the length printed and answers 0; or
// answers the number of the refusal and leaves the buffer and the length as they are.
#[unsafe(no_mangle)]
pub extern "C" fn exact_text(text: &[u8], buffer: &mut [u8], length: &mut usize) -> u8
    ensures { TextStored text.now buffer.old length.old result buffer.new length.new }
{
    let answer = sheet_to_exact::show_exact(text, buffer);
    reply::store_length(numbered(answer), length)
}
