// Writes pseudo-random plans of both weight kinds in both issues, reads them back and writes them again. Bytes and
// refusals are compared with an encoder that is written separately from the byte format.
#![tactic(auto)]

use crate::drafts::Draws;
use crate::trips::{Case, build};
use plans::plan::{LINKS, Link, Plan};
use samples::dice::Dice;
use samples::wire::WeightKind;
use std::alloc::AllocError;
use std::fmt;
use weights::plain::Plain;
use weights::ranked::Ranked;
use weights::weight::Weight;

mod drafts;
mod encoder;
mod trips;

const PLANS: usize = 200;

// What the trips come to; the tally of random calls counts calls, and knows no trips and refusals.
#[derive(Default, Drop)]
struct Tally {
    trips: u64,
    refusals: u64,
    deviations: u64,
}

impl Tally {
    fn note(&mut self, right: bool) {
        if !right {
            self.deviations = self.deviations.saturating_add(1);
        }
    }
}

impl fmt::Display for Tally {
    fn fmt<W: fmt::Write>(&self, f: &mut fmt::Formatter<W>) -> fmt::Result {
        write!(
            f,
            "{} round trips, {} refusals, {} deviations",
            self.trips, self.refusals, self.deviations
        )
    }
}

// One plan in one issue: written into room enough, exactly enough and one byte too little, read back and written again.
fn trip<W: Weight>(plan: &mut Plan<W>, case: &Case, tally: &mut Tally) -> Result<(), AllocError> {
    tally.note(build(plan, case.draft).is_ok());
    let size = case.sheet.len();
    for room in [size.saturating_add(5), size, size.saturating_sub(1)] {
        tally.note(case.writes(plan, room)?);
    }
    if case.refusal(size).is_some() {
        tally.refusals = tally.refusals.saturating_add(1);
        return Ok(());
    }
    plan.clear();
    tally.note(case.reads(plan));
    tally.note(case.writes(plan, size)?);
    tally.trips = tally.trips.saturating_add(1);
    Ok(())
}

// The plans of one weight kind.
fn run<W: Weight>(draws: &mut Draws, tally: &mut Tally) -> Result<(), AllocError> {
    let heap = draws.heap;
    let mut memory = vec![in heap; Link::<W>::blank(); LINKS]?;
    let mut plan = Plan::open(memory.as_mut_slice());
    for _ in 0..PLANS {
        let draft = draws.draft()?;
        for issue in [1, 2, 3, 257] {
            trip(&mut plan, &Case::new(heap, &draft, issue)?, tally)?;
        }
    }
    Ok(())
}

fn main(rt: HostRuntime) -> anyhow::Result<()> {
    let mut tally = Tally::default();
    let mut draws = Draws {
        heap: rt.alloc(),
        dice: Dice::new(30_000),
        kind: WeightKind::Plain,
    };
    run::<Plain>(&mut draws, &mut tally)?;
    draws.kind = WeightKind::Ranked;
    run::<Ranked>(&mut draws, &mut tally)?;
    println!(rt; "{tally}")?;
    Ok(())
}
