// What the model says to a call, and whether a filing did the same.
ghost use Rattle.std.specs.Prelude.{◌≡◌, ◌+◌, ◌<◌, ◌↔◌, IsTrue};

use crate::calls::Call;
use crate::model::{Model, Reply, Seen, Trouble, amount};
use samples::wire::Parts;
use std::fmt;

// Whether a weight with these parts cannot be made.
fn is_over(parts: Parts) -> bool
    ensures { IsTrue result ↔ 2000000 < parts.0 + parts.1 }
{
    amount(parts) > 2_000_000
}

// Makes a call on the model and gives its reply; what is seen of the library's tells what the rules leave open.
pub fn expect(model: &mut Model, call: &Call, seen: &Seen) -> Result<Reply, Trouble> {
    match call {
        Call::Enter(text) => Ok(Reply::Number(model.enter(text.as_slice())?)),
        Call::Recode(unit, text) => {
            model.recode(*unit, text.as_slice())?;
            Ok(Reply::Done)
        }
        Call::Link(_, _, parts) if is_over(*parts) => Err(Trouble::Refused(12)),
        Call::Link(first, second, parts) => {
            Ok(Reply::Number(model.link((*first, *second), *parts)?))
        }
        Call::Strike(link) => {
            model.strike(*link)?;
            Ok(Reply::Done)
        }
        Call::Reweigh(_, parts) if is_over(*parts) => Err(Trouble::Refused(12)),
        Call::Reweigh(link, parts) => {
            model.reweigh(*link, *parts)?;
            Ok(Reply::Done)
        }
        Call::Mark(link, mark) => {
            model.mark(*link, *mark)?;
            Ok(Reply::Done)
        }
        Call::Weigh(marks) => Ok(Reply::Weight(model.weigh(marks.as_slice())?)),
        Call::Weakest(lent) => model.weakest(*lent, seen),
        Call::Trial(link, lent) => model.trial(*link, *lent, seen),
    }
}

// What a call came to on a filing, what is right, and whether the plan is then the model's.
#[derive(Drop)]
pub struct Outcome {
    pub reply: Result<Reply, Trouble>,
    pub expected: Result<Reply, Trouble>,
    pub same: bool,
}

impl Outcome {
    pub fn is_right(&self) -> bool
        ensures { IsTrue result ↔ IsTrue self.now.same × (self.now.reply ≡ self.now.expected) }
    {
        self.same && self.reply == self.expected
    }
}

impl fmt::Display for Outcome {
    fn fmt<W: fmt::Write>(&self, f: &mut fmt::Formatter<W>) -> fmt::Result {
        let plan = if self.same {
            "the same plan"
        } else {
            "another plan"
        };
        write!(
            f,
            "{:?} where {:?} is right, and {plan}",
            self.reply, self.expected
        )
    }
}
