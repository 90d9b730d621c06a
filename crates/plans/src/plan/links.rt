// The calls that name links.
ghost use Rattle.std.specs.Prelude.{◌≡◌, ℕ, ◌+◌, ◌<◌, ◌≤◌, true, length, OnOk, ◌==◌};
ghost use Rattle.plans.specs.Calls.{Called, link_verdict, mark_verdict, reweigh_verdict, strike_verdict};
ghost use Rattle.plans.specs.Marks.{Remarked, Shows, Untouched};
ghost use Rattle.plans.specs.Model.{linked, marked, model_of, reweighed, struck};

use crate::plan::{LINKS, Link, Plan, TOTAL};
use refusals::Refusal;
use weights::weight::Weight;

impl<'a, W: Weight> Plan<'a, W> {
    // Adds a link in service between two units and answers its number: 9, 10, 11, 6, 12.
    pub fn link(&mut self, first: usize, second: usize, weight: W) -> Result<usize, Refusal>
        ensures called { Called (link_verdict (model_of self.old) W.Weight first second weight) (length (model_of self.old).links) (linked (record { first = first; second = second; in_service = true; weight = weight }) (model_of self.old)) self.old result self.new }
        ensures ends { OnOk result ((first < self.old.unit_count) × (second < self.old.unit_count)) }
    {
        if first >= self.unit_count || second >= self.unit_count {
            return Err(Refusal::NoSuchUnit);
        }
        if first == second {
            return Err(Refusal::SelfLink);
        }
        let amount = weight.amount();
        if amount == 0 {
            return Err(Refusal::NoWeight);
        }
        let at = self.link_count;
        if at >= LINKS {
            return Err(Refusal::Full);
        }
        if self.total + amount > TOTAL {
            return Err(Refusal::OverLimit);
        }
        self.links[at] = Link {
            first: first as u8,
            second: second as u8,
            in_service: true,
            weight,
        };
        self.link_count = at + 1;
        self.total += amount;
        Ok(at)
    }

    // Removes a link; later links move down by one: 13.
    pub fn strike(&mut self, link: usize) -> Result<(), Refusal>
        ensures called { Called (strike_verdict (model_of self.old) link) tt (struck link (model_of self.old)) self.old result self.new }
    {
        let old = self.link_at(link)?;
        self.links.copy_within(link + 1..self.link_count, link);
        self.link_count -= 1;
        self.total -= old.weight.amount();
        Ok(())
    }

    // Gives a link another weight: 13, 11, 12.
    pub fn reweigh(&mut self, link: usize, weight: W) -> Result<(), Refusal>
        ensures called { Called (reweigh_verdict (model_of self.old) W.Weight link weight) tt (reweighed link weight (model_of self.old)) self.old result self.new }
    {
        let old = self.link_at(link)?;
        let amount = weight.amount();
        if amount == 0 {
            return Err(Refusal::NoWeight);
        }
        let others = self.total - old.weight.amount();
        if others + amount > TOTAL {
            return Err(Refusal::OverLimit);
        }
        self.links[link].weight = weight;
        self.total = others + amount;
        Ok(())
    }

    // Sets a link in service (1) or out of service (0): 13, 14. A byte, since one that is no mark is refused.
    pub fn mark(&mut self, link: usize, mark: u8) -> Result<(), Refusal>
        ensures called { Called (mark_verdict (model_of self.old) link mark) tt (marked link (mark == 1) (model_of self.old)) self.old result self.new }
    {
        if link >= self.link_count {
            return Err(Refusal::NoSuchLink);
        }
        if mark > 1 {
            return Err(Refusal::BadMark);
        }
        self.links[link].in_service = mark == 1;
        Ok(())
    }

    // Sets the marks of all links from a table of them, 1 for in service. Marks that the links have already change nothing.
    pub fn put_marks(&mut self, marks: &[u8])
        requires size { self.old.link_count ≤ length marks.now }
        ensures units { self.new.unit_count ≡ self.old.unit_count }
        ensures remarked { Remarked marks.now self.old self.new }
        ensures same { Shows marks.now (model_of self.old).links → Untouched self.old self.new }
    {
        // by number, as what a zip lends to be written is not known after the loop
        for (i, mark) in marks[..self.link_count].iter().enumerate() {
            self.links[i].in_service = *mark == 1;
        }
    }
}
