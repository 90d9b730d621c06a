// What a plan tells of itself.
ghost use Rattle.std.specs.Prelude.{◌≡◌, ℕ, ◌<◌, ◌≤◌, map, length, IfOk, MatchResult, slice_index_or};
ghost use Rattle.std.specs.List.{AllWithin};
ghost use Rattle.plans.specs.Model.{model_of, code_of};
ghost use Rattle.plans.specs.Sound.{Joins};

use crate::plan::{Link, Plan, Unit};
use refusals::Refusal;
use weights::weight::Weight;

impl<'a, W: Weight> Plan<'a, W> {
    // How many units there are.
    pub fn unit_count(&self) -> usize
        ensures value { result ≡ self.now.unit_count }
        ensures units { result ≡ length (model_of self.now).codes }
    {
        self.unit_count
    }

    // How many links there are.
    pub fn link_count(&self) -> usize
        ensures value { result ≡ self.now.link_count }
        ensures links { result ≡ length (model_of self.now).links }
    {
        self.link_count
    }

    // The units, by number.
    pub fn units(&self) -> &[Unit]
        ensures { map code_of result.now ≡ (model_of self.now).codes }
    {
        &self.units[..self.unit_count]
    }

    // The links, by number.
    pub fn links(&self) -> &[Link<W>]
        ensures value { result.now ≡ (model_of self.now).links }
        ensures len { length result.now ≡ self.now.link_count }
        ensures joins { AllWithin (Joins W.Weight self.now.unit_count) result.now 0 (length result.now) }
    {
        &self.links[..self.link_count]
    }

    // The link with a number: 13 if there is none.
    pub fn link_at(&self, link: usize) -> Result<Link<W>, Refusal>
        ensures joins { IfOk result (λ l. Joins W.Weight self.now.unit_count l) }
        ensures value { MatchResult result (λ l. (link < self.now.link_count) × (l ≡ slice_index_or self.now.links.now link l)) (λ e. (e ≡ Refusal.NoSuchLink) × (self.now.link_count ≤ link)) }
    {
        if link >= self.link_count {
            return Err(Refusal::NoSuchLink);
        }
        Ok(self.links[link])
    }
}
