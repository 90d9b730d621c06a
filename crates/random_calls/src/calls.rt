// The calls, as they are made on a filing, and what is seen of each.
ghost use Rattle.std.specs.Prelude.{◌≡◌, ◌≤◌, IfOk, [], length, vec_len};
ghost use Rattle.filings.specs.Filed.{Filed};
ghost use Rattle.plans.specs.Model.{model_of};
ghost use Rattle.plans.specs.Sound.{most_links};

use crate::model::{Answered, Lent, NOTHING, Reply, Seen, Trouble, UNTOUCHED};
use answers::trial::trial;
use answers::weakest::weakest;
use cuts::entry::Entry;
use cuts::ground::Ground;
use filings::filing::Filing;
use plans::plan::Link;
use queues::list::{ListQueue, Slot};
use queues::queue::GROUPS;
use refusals::Refusal;
use samples::wire::{Parts, parts_of};
use solvers::answer::Answer;
use std::alloc::{AllocError, Global};
use std::mem;
use weights::weight::Weight;

// A call with its arguments, as plain values: it is printed and given to the model, and `Call` of `runs` holds the
// library's weights.
#[derive(Debug, Drop)]
pub enum Call {
    Enter(Vec<u8>),
    Recode(usize, Vec<u8>),
    Link(usize, usize, Parts),
    Strike(usize),
    Reweigh(usize, Parts),
    // a byte, since one that is no mark is to be refused
    Mark(usize, u8),
    Weigh(Vec<u8>),
    Weakest(Lent),
    Trial(usize, Lent),
}

impl From<Refusal> for Trouble {
    fn from(why: Refusal) -> Trouble {
        Trouble::Refused(u8::from(why))
    }
}

// What the memory for record entries holds before it is lent. The report has such an entry of its own, which stays
// private, and this program stands on nothing of it.
const BLANK: Entry = Entry {
    low: 0,
    high: 0,
    ground: Ground::Heavy,
    scan: 0,
};

// What each lent weight has as its first part before a call.
const FILLED: u32 = 7;

// Memory that is lent for an answer, filled so that a change of it shows.
#[derive(Drop)]
struct Memory<W> {
    marks: Vec<u8>,
    entries: Vec<Entry>,
    table: Vec<W>,
    slots: Vec<Slot<W>>,
}

impl<W: Weight> Memory<W> {
    fn new(heap: Global, lent: Lent) -> Result<Memory<W>, AllocError>
        ensures { IfOk result (λ memory. vec_len memory.slots ≡ 64) }
    {
        let weight = W::from_parts(&[FILLED]).unwrap_or(W::nothing());
        Ok(Memory {
            marks: vec![in heap; UNTOUCHED; lent.marks]?,
            entries: vec![in heap; BLANK; lent.entries]?,
            table: vec![in heap; weight; lent.weights]?,
            slots: vec![in heap; Slot::empty(); GROUPS]?,
        })
    }

    // The weakest division, or that with one link out of service, in this memory.
    fn ask(&mut self, filing: &mut Filing<W>, without: Option<usize>) -> Result<Answer<W>, Refusal>
        requires slots { 64 ≤ vec_len self.old.slots }
        ensures filed { Filed W.Weight filing.old → Filed W.Weight filing.new }
    {
        let mut queue = ListQueue::over(self.slots.as_mut_slice());
        let marks = self.marks.as_mut_slice();
        let entries = self.entries.as_mut_slice();
        let table = self.table.as_mut_slice();
        match without {
            None => weakest(filing, &mut queue, marks, entries, table),
            Some(link) => trial(filing, link, &mut queue, marks, entries, table),
        }
    }

    // How many of the first weights are nothing, if all the others are as they were filled.
    fn cleared(&self) -> Option<usize> {
        let count = self
            .table
            .iter()
            .take_while(|weight| parts_of(**weight) == NOTHING)
            .count();
        self.table
            .iter()
            .skip(count)
            .all(|weight| parts_of(*weight) == (FILLED, 0))
            .then_some(count)
    }

    // An answer, or a refusal, with what has become of the memory.
    fn reply(&self, outcome: Result<Answer<W>, Refusal>) -> Result<Reply, Trouble> {
        let cleared = self.cleared().ok_or(Trouble::WrongMemory)?;
        let touched = cleared != 0 || self.marks.iter().any(|mark| *mark != UNTOUCHED);
        if outcome.is_err() && touched {
            return Err(Trouble::WrongMemory);
        }
        let answer = outcome?;
        Ok(Reply::Answer(Answered {
            figure: parts_of(answer.figure),
            kept: answer.kept,
            mergers: answer.mergers,
            scans: answer.scans,
            cleared,
        }))
    }
}

// The library's weight with some parts.
fn weight_of<W: Weight>(parts: Parts) -> Result<W, Refusal> {
    W::from_parts(&[parts.0, parts.1])
}

// A filing on which calls are made, and the memory for marks that the last call was lent.
#[derive(Drop)]
pub struct Caller<'a, W: Weight> {
    heap: Global,
    pub filing: Filing<'a, W>,
    marks: Vec<u8>,
}

impl<'a, W: Weight> Caller<'a, W> {
    // A plan with no units.
    pub fn open(heap: Global, links: &'a mut [Link<W>]) -> Caller<'a, W>
        requires { most_links ≤ length links.old }
        ensures filed { Filed W.Weight result.filing }
        ensures model { model_of result.filing.plan ≡ record { codes = []; links = [] } }
    {
        Caller {
            heap,
            filing: Filing::open(links),
            marks: Vec::new(heap),
        }
    }

    // Asks in memory of the wanted sizes that is made for it.
    fn ask(&mut self, without: Option<usize>, lent: Lent) -> Result<Reply, Trouble>
        ensures filed { Filed W.Weight self.old.filing → Filed W.Weight self.new.filing }
    {
        let mut memory = Memory::new(self.heap, lent)?;
        let outcome = memory.ask(&mut self.filing, without);
        let reply = memory.reply(outcome);
        self.marks = memory.marks;
        reply
    }

    fn make(&mut self, call: &Call) -> Result<Reply, Trouble>
        ensures filed { Filed W.Weight self.old.filing → Filed W.Weight self.new.filing }
    {
        match call {
            Call::Enter(text) => Ok(Reply::Number(self.filing.enter(text.as_slice())?)),
            Call::Recode(unit, text) => {
                self.filing.recode(*unit, text.as_slice())?;
                Ok(Reply::Done)
            }
            Call::Link(first, second, parts) => {
                let weight = weight_of(*parts)?;
                Ok(Reply::Number(self.filing.link(*first, *second, weight)?))
            }
            Call::Strike(link) => {
                self.filing.strike(*link)?;
                Ok(Reply::Done)
            }
            Call::Reweigh(link, parts) => {
                let weight = weight_of(*parts)?;
                self.filing.reweigh(*link, weight)?;
                Ok(Reply::Done)
            }
            Call::Mark(link, mark) => {
                self.filing.mark(*link, *mark)?;
                Ok(Reply::Done)
            }
            Call::Weigh(marks) => {
                let weight = self.filing.weigh(marks.as_slice())?;
                Ok(Reply::Weight(parts_of(weight)))
            }
            Call::Weakest(lent) => self.ask(None, *lent),
            Call::Trial(link, lent) => self.ask(Some(*link), *lent),
        }
    }

    // Makes a call.
    pub fn perform(&mut self, call: &Call) -> Seen
        ensures filed { Filed W.Weight self.old.filing → Filed W.Weight self.new.filing }
    {
        let reply = self.make(call);
        let marks = mem::replace(&mut self.marks, Vec::new(self.heap));
        Seen { reply, marks }
    }
}
