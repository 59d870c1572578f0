// Dividing a table for callers in C or Rust, by C's calling convention.
#![tactic(auto)]

ghost use Rattle.std.specs.Prelude.{◌≡◌};
ghost use Rattle.sheet.specs.Contents.{sheet_of};
ghost use Rattle.sheet.specs.Answers.{number_of, after};
ghost use Rattle.rounds.specs.Division.{answer};
ghost use Rattle.division_c.specs.Lent.{store_grade, store_bundles, store_cutters};

use division::Division;
use sheet::{Contents, Sheet, Table};

// Divides the table among `agents` agents (yards) with an allowance for cutting. Answers 0 and stores the grade, each agent's bundle as
// a set of items and the cutter of each round, 0 after the last; or answers the number of the refusal and stores nothing.
#[unsafe(no_mangle)]
pub extern "C" fn divide_table(
    table: &Table,
    agents: usize,
    items: usize,
    allowance: u32,
    grade: &mut u8,
    bundles: &mut [u16; Sheet::AGENTS],
    cutters: &mut [u8; Sheet::AGENTS],
) -> u8
    ensures answer { result ≡ number_of (answer (sheet_of agents items table.now) allowance) }
    ensures grade { grade.new ≡ after store_grade (answer (sheet_of agents items table.now) allowance) grade.old }
    ensures bundles { bundles.new ≡ after store_bundles (answer (sheet_of agents items table.now) allowance) bundles.old }
    ensures cutters { cutters.new ≡ after store_cutters (answer (sheet_of agents items table.now) allowance) cutters.old }
{
    let contents = Contents {
        agents,
        items,
        table: *table,
    };
    match division::divide(contents, allowance) {
        Ok(division) => {
            let Division {
                grade: graded,
                bundles: held,
                cutters: cut_by,
                ..
            } = division;
            *grade = graded;
            *bundles = held;
            *cutters = cut_by;
            0
        }
        Err(refusal) => refusal.number(),
    }
}
