// What an allocation of the items of a table comes to: the worths of the bundles, the margins and the grade.
#![tactic(auto)]

ghost use Rattle.std.specs.Prelude.{◌≡◌, min};
ghost use Rattle.sheet.specs.Limits.{most_agents};
ghost use Rattle.grades.specs.Assessment.{assessment_in};
ghost use Rattle.grading.specs.Assessed.{assessed};
ghost use Rattle.grading.specs.internal.ByAmounts.{grade_by_amounts};

use grade_amounts::{Compared, compare};
use margins::{Margins, margins_of, none_negative};
use sheet::amounts::{Amounts, each_at_most};
use sheet::{Contents, Sets};
use terms::Terms;

// The worth of each agent's bundle and its margin, 0 after the last agent, and the grade. Arrays side by side: the margins go on as one, to
// the judgement, the worths to the division.
#[derive(Clone, Copy)]
pub struct Assessed {
    pub worths: Amounts,
    pub margins: Margins,
    pub grade: u8,
}

// "The loft's custom, from the whole division; the first that fits".
fn grade_by(agents: usize, compared: Compared, shares: Amounts, margins: Margins) -> u8
    ensures { result ≡ grade_by_amounts (min agents most_agents) compared shares margins }
{
    if each_at_most(compared.greatest, compared.own, agents) {
        1
    } else if each_at_most(compared.totals, compared.multiples, agents) {
        2
    } else if each_at_most(shares, compared.own, agents) {
        3
    } else if none_negative(margins, agents) {
        4
    } else {
        5
    }
}

// What any allocation comes to, by the terms and the shares. Agents and items above the limits of a sheet, and items in a bundle above
// those of the sheet, count for nothing; the terms, and the shares for the margins, are cut to their limits.
pub fn assess(contents: Contents, terms: Terms, shares: Amounts, bundles: Sets) -> Assessed
    ensures { result ≡ assessed (assessment_in contents terms shares bundles) }
{
    let compared = compare(contents, bundles);
    let worths = compared.own;
    let margins = margins_of(contents.agents, terms, worths, shares);
    let grade = grade_by(contents.agents, compared, shares, margins);
    Assessed {
        worths,
        margins,
        grade,
    }
}
