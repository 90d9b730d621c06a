// A plan with the marks that it keeps.
ghost use Rattle.std.specs.Prelude.{◌≡◌, ◌<◌, ◌≤◌, true, false, cond, [], length, take, IfErr, OnOk, ◌==◌};
ghost use Rattle.plans.specs.Calls.{Answered, Called, enter_verdict, link_verdict, mark_verdict, most_links, recode_verdict, reweigh_verdict, strike_verdict};
ghost use Rattle.plans.specs.Divided.{weigh_verdict, weighed};
ghost use Rattle.plans.specs.Marks.{Shows, Untouched};
ghost use Rattle.plans.specs.Model.{entered, linked, marked, model_of, recoded, reweighed, struck};
ghost use Rattle.sheets.specs.Faults.{FirstFault};
ghost use Rattle.sheets.specs.Fields.{issue_in};
ghost use Rattle.sheets.specs.Format.{sheet_of, Valid};
ghost use Rattle.filings.specs.Edits.{change_of, entering, linking, marking, recoding, reweighing, stays, striking};
ghost use Rattle.filings.specs.declared.kept.Edit.TheVariants.{In, Out};
ghost use Rattle.filings.specs.Filed.{Filed, Marks, Settled};

use crate::kept::{Change, Edit, Ends, Kept};
use plans::plan::{Link, Plan};
use readers::read;
use refusals::Refusal;
use sheets::fault::Fault;
use weights::weight::Weight;

// That kept marks are those of a weakest division stays a named condition, `Filed`: tried as a ghost field, which takes only a
// fact with one proof, and a division is shown by any marked and any unmarked unit.
#[derive(Drop)]
pub struct Filing<'a, W: Weight> {
    plan: Plan<'a, W>,
    kept: Kept,
}

// How a weight compares with one before it.
fn change<W: Weight>(before: W, after: W) -> Change
    ensures { result ≡ change_of W.Weight before after }
{
    match (before.at_most(after), after.at_most(before)) {
        (true, true) => Change::Equal,
        (true, false) => Change::Heavier,
        (false, _) => Change::Lighter,
    }
}

// The edit that a mark makes of a link: in service or out.
fn mark_edit(link: Ends, in_service: bool) -> Edit
    ensures { result ≡ cond in_service (In link) (Out link) }
{
    if in_service {
        Edit::In(link)
    } else {
        Edit::Out(link)
    }
}

impl<'a, W: Weight> Filing<'a, W> {
    // A filing with no units, no links and no kept marks; `Plan::check` tells whether the memory suffices.
    pub fn open(links: &'a mut [Link<W>]) -> Filing<'a, W>
        requires { most_links ≤ length links.old }
        ensures filed { Filed W.Weight result }
        ensures model { model_of result.plan ≡ record { codes = []; links = [] } }
        ensures memory { result.plan.links.now ≡ links.old }
        ensures none { result.kept.kept ≡ false }
    {
        Filing {
            plan: Plan::open(links),
            kept: Kept::none(),
        }
    }

    pub fn plan(&self) -> &Plan<'a, W>
        ensures { result.now ≡ self.now.plan }
    {
        &self.plan
    }

    pub fn kept(&self) -> &Kept
        ensures { result.now ≡ self.now.kept }
    {
        &self.kept
    }

    // Adds a unit with the given code and answers its number: 7, 8, 6.
    pub fn enter(&mut self, text: &[u8]) -> Result<usize, Refusal>
        ensures filed { Filed W.Weight self.old → Filed W.Weight self.new }
        ensures called { Called (enter_verdict (model_of self.old.plan) text.now) (length (model_of self.old.plan).codes) (entered text.now (model_of self.old.plan)) self.old.plan result self.new.plan }
        ensures kept { Settled (stays W.Weight (model_of self.old.plan) self.old.kept.sides entering) self.old result self.new }
    {
        let unit = self.plan.enter(text)?;
        self.kept.settle(Edit::Enter);
        Ok(unit)
    }

    // Gives a unit another code: 9, 7, 8.
    pub fn recode(&mut self, unit: usize, text: &[u8]) -> Result<(), Refusal>
        ensures filed { Filed W.Weight self.old → Filed W.Weight self.new }
        ensures called { Called (recode_verdict (model_of self.old.plan) unit text.now) tt (recoded unit text.now (model_of self.old.plan)) self.old.plan result self.new.plan }
        ensures kept { Settled (stays W.Weight (model_of self.old.plan) self.old.kept.sides recoding) self.old result self.new }
    {
        self.plan.recode(unit, text)?;
        self.kept.settle(Edit::Recode);
        Ok(())
    }

    // Replaces the whole plan by that of a sheet, or tells the first fault.
    pub fn read(&mut self, bytes: &[u8]) -> Result<(), Fault>
        ensures filed { Filed W.Weight self.old → Filed W.Weight self.new }
        ensures sheet { OnOk result ((bytes.now ≡ sheet_of W.Weight (issue_in bytes.now) (model_of self.new.plan)) × Valid W.Weight (issue_in bytes.now) (model_of self.new.plan)) }
        ensures kept { OnOk result ((self.new.kept.kept ≡ false) × (self.new.kept.sides ≡ self.old.kept.sides)) }
        ensures fault { IfErr result (λ e. FirstFault W.Weight bytes.now e × (self.new ≡ self.old)) }
    {
        read::read(bytes, &mut self.plan)?;
        self.kept.settle(Edit::Read);
        Ok(())
    }

    // Removes a link; later links move down by one: 13.
    pub fn strike(&mut self, link: usize) -> Result<(), Refusal>
        ensures filed { Filed W.Weight self.old → Filed W.Weight self.new }
        ensures called { Called (strike_verdict (model_of self.old.plan) link) tt (struck link (model_of self.old.plan)) self.old.plan result self.new.plan }
        ensures kept { Settled (stays W.Weight (model_of self.old.plan) self.old.kept.sides (striking link)) self.old result self.new }
    {
        let old = self.plan.link_at(link)?;
        self.plan.strike(link)?;
        self.kept.settle(Edit::Out(Ends::from(old)));
        Ok(())
    }

    // Adds a link in service between two units and answers its number: 9, 10, 11, 6, 12.
    pub fn link(&mut self, first: usize, second: usize, weight: W) -> Result<usize, Refusal>
        ensures filed { Filed W.Weight self.old → Filed W.Weight self.new }
        ensures called { Called (link_verdict (model_of self.old.plan) W.Weight first second weight) (length (model_of self.old.plan).links) (linked (record { first = first; second = second; in_service = true; weight = weight }) (model_of self.old.plan)) self.old.plan result self.new.plan }
        ensures kept { Settled (stays W.Weight (model_of self.old.plan) self.old.kept.sides (linking first second)) self.old result self.new }
    {
        let link = self.plan.link(first, second, weight)?;
        self.kept.settle(Edit::Link { first, second });
        Ok(link)
    }

    // Gives a link another weight: 13, 11, 12.
    pub fn reweigh(&mut self, link: usize, weight: W) -> Result<(), Refusal>
        ensures filed { Filed W.Weight self.old → Filed W.Weight self.new }
        ensures called { Called (reweigh_verdict (model_of self.old.plan) W.Weight link weight) tt (reweighed link weight (model_of self.old.plan)) self.old.plan result self.new.plan }
        ensures kept { Settled (stays W.Weight (model_of self.old.plan) self.old.kept.sides (reweighing link weight)) self.old result self.new }
    {
        let old = self.plan.link_at(link)?;
        self.plan.reweigh(link, weight)?;
        self.kept
            .settle(Edit::Reweigh(Ends::from(old), change(old.weight, weight)));
        Ok(())
    }

    // Sets a link in service (1) or out of service (0): 13, 14. A byte, since one that is no mark is refused.
    pub fn mark(&mut self, link: usize, mark: u8) -> Result<(), Refusal>
        ensures filed { Filed W.Weight self.old → Filed W.Weight self.new }
        ensures called { Called (mark_verdict (model_of self.old.plan) link mark) tt (marked link (mark == 1) (model_of self.old.plan)) self.old.plan result self.new.plan }
        ensures kept { Settled (stays W.Weight (model_of self.old.plan) self.old.kept.sides (marking link mark)) self.old result self.new }
    {
        let old = self.plan.link_at(link)?;
        self.plan.mark(link, mark)?;
        self.kept.settle(mark_edit(Ends::from(old), mark == 1));
        Ok(())
    }

    // The weight of the division that one byte for each unit marks: 15, 14, 15.
    pub fn weigh(&self, marks: &[u8]) -> Result<W, Refusal>
        ensures { Answered (weigh_verdict (model_of self.now.plan) marks.now) W.Weight.value (weighed W.Weight (model_of self.now.plan) marks.now) result }
    {
        self.plan.weigh(marks)
    }

    // Keeps the marks of the plan's units, which are those of a weakest division.
    pub fn keep(&mut self, marks: &[u8])
        requires marks { Marks W.Weight (model_of self.old.plan) marks.now }
        requires size { self.old.plan.unit_count ≤ length marks.now }
        ensures filed { Filed W.Weight self.new }
        ensures plan { self.new.plan ≡ self.old.plan }
        ensures kept { self.new.kept.kept ≡ true }
        ensures sides { take self.old.plan.unit_count self.new.kept.sides ≡ take self.old.plan.unit_count marks.now }
    {
        let n = self.plan.unit_count();
        self.kept.keep(&marks[..n]);
    }

    // Writes back the marks of all links, as they were copied out; kept marks are not touched.
    pub fn put_marks(&mut self, marks: &[u8])
        requires size { self.old.plan.link_count ≤ length marks.now }
        requires shows { Shows marks.now (model_of self.old.plan).links }
        ensures filed { Filed W.Weight self.old → Filed W.Weight self.new }
        ensures kept { self.new.kept ≡ self.old.kept }
        ensures same { Untouched self.old.plan self.new.plan }
    {
        self.plan.put_marks(marks);
    }
}
