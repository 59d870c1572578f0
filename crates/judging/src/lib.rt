// Judging a division that others bring: the reason to refuse it, or that all it states is true, with the margin of each agent.
#![tactic(auto)]

ghost use Rattle.std.specs.Prelude.{◌≡◌, map, length};
ghost use Rattle.sheet.specs.Limits.{most_agents};
ghost use Rattle.sheet.specs.Answers.{map_answer};
ghost use Rattle.sheet.specs.Refusals.{answer_of};
ghost use Rattle.shares.specs.Known.{SharesIn};
ghost use Rattle.terms.specs.Allowed.{SmallTerms};
ghost use Rattle.stated_truth.specs.Judging.{judging_by, judging};
ghost use Rattle.stated_truth.specs.Lines.{stated_in};
ghost use Rattle.judging.specs.Stored.{stored};

use division_reading::{Stated, StatedLine};
use grading::assess;
use margins::Margins;
use shares::share_each;
use sheet::amounts::Amounts;
use sheet::refusal::Refusal;
use sheet::{Contents, Sets, Sheet};
use stated_figures::figures_true;
use stated_items::{all_in_one, all_of_sheet};
use terms::{Terms, terms_for};

// The bundle of each line.
fn bundles_of(lines: [StatedLine; Sheet::AGENTS]) -> Sets
    ensures each { result ≡ map (λ l. l.bundle) lines }
    ensures places { length lines ≡ most_agents }
{
    lines.map(|line| line.bundle)
}

// The margin of each agent, 0 after the last, on a division of a table that is not refused, by the terms and by the shares of its agents.
fn judge_shared(
    contents: Contents,
    terms: Terms,
    shares: Amounts,
    division: Stated,
) -> Result<Margins, Refusal>
    requires { SharesIn contents shares × SmallTerms terms }
    ensures { answer_of result ≡ map_answer stored (judging_by contents terms (stated_in contents.agents (Some division))) }
{
    let Contents { agents, items, .. } = contents;
    let lines = division.lines;
    let bundles = bundles_of(lines);
    let assessed = assess(contents, terms, shares, bundles);
    let named = all_of_sheet(bundles, lines, agents, items);
    let once = all_in_one(bundles, lines, agents, items);
    let correct = figures_true(contents, shares, assessed.worths, assessed.grade, division);
    if !named {
        return Err(Refusal::DivisionMalformed);
    }
    if !once {
        return Err(Refusal::ItemNotOnce);
    }
    if !correct {
        return Err(Refusal::StatementFalse);
    }
    Ok(assessed.margins)
}

// The margin of each agent, 0 after the last, where a division of a sheet is read and all that it states is true, by the terms of document 01. Refused as the
// shares of the sheet are; else with 11 where the division is not read or names an item that is not on the sheet, with 12 where an item is in
// no bundle or in two, of the division or of a cut, and with 13 where a worth, a share, a cut or the grade is false.
pub fn judge(contents: Contents, division: Option<Stated>) -> Result<Margins, Refusal>
    ensures { answer_of result ≡ map_answer stored (judging contents (stated_in contents.agents division)) }
{
    let own = share_each(contents)?;
    let terms = terms_for(contents.agents);
    let division = division.ok_or(Refusal::DivisionMalformed)?;
    judge_shared(contents, terms, own.shares, division)
}
