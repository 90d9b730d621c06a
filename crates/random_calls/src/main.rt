// Makes pseudo-random calls on filings of both weight kinds, and compares each reply, and the plan after it, with a
// model that is written from docs/RULES.md alone.
#![tactic(auto)]

ghost use Rattle.filings.specs.Filed.{Filed};

use crate::calls::{Call, Caller};
use crate::compare::{Outcome, expect};
use crate::draws::{Draws, Form};
use crate::model::{Model, Trouble};
use anyhow::ensure;
use plans::plan::{LINKS, Link};
use samples::wire::{WeightKind, is_made_of};
use std::fmt;
use weights::plain::Plain;
use weights::ranked::Ranked;
use weights::weight::Weight;

mod calls;
mod compare;
mod draws;
mod model;

// For each weight kind eight short runs on at most 3 to 10 units, three woven ones on 6, 8 and 12 units, and a long one
// that fills the plan: 11 × 300 + 1700 calls.
const SHORT: usize = 300;

const LONG: usize = 1700;

// What the runs come to; the tally of round trips counts trips and refusals, and no calls.
#[derive(Default, Drop)]
struct Tally {
    calls: u64,
    deviations: u64,
}

impl fmt::Display for Tally {
    fn fmt<W: fmt::Write>(&self, f: &mut fmt::Formatter<W>) -> fmt::Result {
        write!(f, "{} calls, {} deviations", self.calls, self.deviations)
    }
}

impl Tally {
    // Counts a call, and names it if the filing and the model differ.
    fn note(&mut self, rt: &impl Print, call: &Call, outcome: &Outcome) -> anyhow::Result<()> {
        self.calls = self.calls.saturating_add(1);
        if !outcome.is_right() {
            self.deviations = self.deviations.saturating_add(1);
            println!(rt; "call {}, {call:?}: {outcome}", self.calls)?;
        }
        Ok(())
    }
}

// Makes a call on the filing and on the model.
fn step<W: Weight>(caller: &mut Caller<W>, model: &mut Model, call: &Call) -> Outcome
    requires { Filed W.Weight caller.old.filing }
    ensures { Filed W.Weight caller.new.filing }
{
    let seen = caller.perform(call);
    Outcome {
        reply: seen.reply,
        expected: expect(model, call, &seen),
        same: is_made_of(
            caller.filing.plan(),
            model.codes.as_slice(),
            model.wires.as_slice(),
        ),
    }
}

// A run of calls, from a plan with no units: each is made on a filing and on the model.
fn run<W: Weight>(
    rt: &impl Print,
    draws: &mut Draws,
    calls: usize,
    tally: &mut Tally,
) -> anyhow::Result<()> {
    let heap = draws.heap;
    let mut links = vec![in heap; Link::<W>::blank(); LINKS]?;
    let mut caller = Caller::open(heap, links.as_mut_slice());
    let mut model = Model::new(heap);
    for turn in 0..calls {
        let call = draws.call(&model, turn)?;
        let outcome = step(&mut caller, &mut model, &call);
        let none = Err(Trouble::NoMemory);
        ensure!(
            outcome.reply != none && outcome.expected != none,
            "memory allocation failed"
        );
        tally.note(rt, &call, &outcome)?;
    }
    Ok(())
}

// All runs of one weight kind.
fn runs<W: Weight>(rt: &impl Print, mut draws: Draws, tally: &mut Tally) -> anyhow::Result<()> {
    for codes in [3, 4, 5, 6, 7, 8, 9, 10] {
        draws.codes = codes;
        run::<W>(rt, &mut draws, SHORT, tally)?;
    }
    draws.form = Form::Woven;
    for codes in [6, 8, 12] {
        draws.codes = codes;
        run::<W>(rt, &mut draws, SHORT, tally)?;
    }
    draws.form = Form::Filling;
    draws.codes = 200;
    run::<W>(rt, &mut draws, LONG, tally)
}

fn main(rt: HostRuntime) -> anyhow::Result<()> {
    let mut tally = Tally::default();
    runs::<Plain>(&rt, Draws::new(rt.alloc(), WeightKind::Plain), &mut tally)?;
    runs::<Ranked>(&rt, Draws::new(rt.alloc(), WeightKind::Ranked), &mut tally)?;
    println!(rt; "{tally}")?;
    Ok(())
}
