// The weight of a division.
ghost use Rattle.std.specs.Prelude.{◌≡◌, ℕ, ◌<◌, ◌≤◌, ◌&&◌, map, length};
ghost use Rattle.std.specs.List.{AllWithin};
ghost use Rattle.cuts.specs.Divisions.{differ, weight_of};
ghost use Rattle.plans.specs.Calls.{Answered, most_total};
ghost use Rattle.cuts.specs.Kinds.{kind_of};
ghost use Rattle.plans.specs.Divided.{are_marks, marks_count, side_of, valued, weigh_verdict, weighed};
ghost use Rattle.plans.specs.Model.{model_of, total_of};
ghost use Rattle.plans.specs.Sound.{Joins};

use crate::plan::{Link, Plan};
use refusals::Refusal;
use weights::weight::{Weight, add};

// Whether every mark is 0 or 1.
fn are_marks(marks: &[u8]) -> bool
    ensures { result ≡ are_marks marks.now }
{
    marks.iter().all(|mark| *mark < 2)
}

// How many marks are 1: a sum, since `filter` and `count` would branch at each mark, which costs more where marks are mixed.
fn marked_count(marks: &[u8]) -> usize
    ensures { result ≡ marks_count marks.now }
{
    let mut count = 0;
    for mark in marks {
        count += usize::from(*mark == 1);
    }
    count
}

// Whether a unit is marked.
fn side(marks: &[u8], unit: usize) -> bool
    requires { unit < length marks.now }
    ensures { result ≡ side_of marks.now unit }
{
    marks[unit] == 1
}

// Whether a link is in service with exactly one end marked.
fn is_cut<W: Weight>(link: &Link<W>, marks: &[u8]) -> bool
    requires first { link.now.first < length marks.now }
    requires second { link.now.second < length marks.now }
    ensures { result ≡ (link.now.in_service && differ (side_of marks.now link.now.first) (side_of marks.now link.now.second)) }
{
    link.in_service && side(marks, link.first as usize) != side(marks, link.second as usize)
}

// The sum over the links in service with exactly one end marked.
fn cut_weight<W: Weight>(links: &[Link<W>], marks: &[u8]) -> W
    requires ends { AllWithin (Joins W.Weight (length marks.now)) links.now 0 (length links.now) }
    requires total { total_of W.Weight links.now ≤ most_total }
    ensures { W.Weight.value result ≡ weight_of (kind_of W.Weight) (map (valued W.Weight) links.now) (side_of marks.now) }
{
    let mut sum = W::nothing();
    for link in links {
        if is_cut(link, marks) {
            sum = add(sum, link.weight);
        }
    }
    sum
}

impl<'a, W: Weight> Plan<'a, W> {
    // The weight of the division that one byte for each unit marks: 15 below two units, 14, then 15 if none or all are marked.
    pub fn weigh(&self, marks: &[u8]) -> Result<W, Refusal>
        ensures { Answered (weigh_verdict (model_of self.now) marks.now) W.Weight.value (weighed W.Weight (model_of self.now) marks.now) result }
    {
        let units = self.unit_count;
        if units < 2 {
            return Err(Refusal::NoDivision);
        }
        if marks.len() != units || !are_marks(marks) {
            return Err(Refusal::BadMark);
        }
        let count = marked_count(marks);
        if count == 0 || count == units {
            return Err(Refusal::NoDivision);
        }
        Ok(self.cut(marks))
    }

    // The weight of what one byte for each unit cuts.
    pub fn cut(&self, marks: &[u8]) -> W
        requires size { length marks.now ≡ self.now.unit_count }
        ensures { W.Weight.value result ≡ weighed W.Weight (model_of self.now) marks.now }
    {
        cut_weight(self.links(), marks)
    }
}
