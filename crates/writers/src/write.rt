// Writes the whole sheet of a plan.
ghost use Rattle.std.specs.List.{list_any};
ghost use Rattle.codes.specs.Held.{bytes_of};
ghost use Rattle.std.specs.Prelude.{◌≡◌, ◌==◌, map, length, MatchResult};
ghost use Rattle.plans.specs.Model.{code_of, model_of};
ghost use Rattle.sheets.specs.Format.{Valid, sheet_of};
ghost use Rattle.writers.specs.Fields.{Put, Room};
ghost use Rattle.writers.specs.Written.{Fitting, Refusing, Written};

use crate::pen::Pen;
use plans::plan::{Plan, Unit};
use refusals::Refusal;
use refusals::memory::enough;
use sheets::issue::Issue;
use weights::weight::Weight;

// Whether a code has seven characters.
fn any_long(units: &[Unit]) -> bool
    ensures { result ≡ list_any (λ u. length (bytes_of u.code) == 7) units.now }
{
    units.iter().any(|unit| unit.code.is_long())
}

// The issue with a number: 2 if there is none, 16 if a code of the plan does not fit it.
fn issue_for<W: Weight>(plan: &Plan<W>, number: u16) -> Result<Issue, Refusal>
    ensures { MatchResult result (Fitting W.Weight (model_of plan.now) number) (Refusing W.Weight (model_of plan.now) number) }
{
    let issue = Issue::try_from(number)?;
    if issue == Issue::First && any_long(plan.units()) {
        return Err(Refusal::LongCode);
    }
    Ok(issue)
}

// How many bytes the sheet has: nine in the head, a field for each code, and for each link two ends, a mark and its parts.
fn sheet_size<W: Weight>(plan: &Plan<W>, issue: Issue) -> usize
    requires { Valid W.Weight issue (model_of plan.now) }
    ensures { result ≡ length (sheet_of W.Weight issue (model_of plan.now)) }
{
    let codes = plan.unit_count() * issue.code_size();
    let links = plan.link_count() * (3 + 4 * W::PARTS);
    9 + codes + links
}

// Puts the sheet at the start of the lent bytes: head, codes, links.
fn put_sheet<W: Weight>(out: &mut [u8], plan: &Plan<W>, issue: Issue) -> usize
    requires { Room out.old 0 (sheet_of W.Weight issue (model_of plan.now)) }
    ensures { Put out.old 0 (sheet_of W.Weight issue (model_of plan.now)) result out.new }
{
    let mut pen = Pen::over(out);
    pen.put_head::<W>(issue, plan.unit_count() as u8, plan.link_count() as u16);
    pen.put_codes(issue, plan.units());
    pen.put_links(plan.links());
    pen.place()
}

// Writes the plan's sheet in the issue with a number, and answers its length; the bytes beyond it stay: 2, 16, 17.
// A number that is no issue is refused (2), so the issue is told by its number and not as an `Issue`.
pub fn write<W: Weight>(plan: &Plan<W>, issue: u16, out: &mut [u8]) -> Result<usize, Refusal>
    ensures { Written W.Weight (model_of plan.now) issue out.old result out.new }
{
    let issue = issue_for(plan, issue)?;
    enough(out, sheet_size(plan, issue))?;
    Ok(put_sheet(out, plan, issue))
}
