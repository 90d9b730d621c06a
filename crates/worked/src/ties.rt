// The same plan with two queues that choose differently among equally heavy groups.
use crate::bench::*;
use cuts::ground::Ground;
use drains::tied::{Tie, TiedQueue};
use filings::filing::Filing;
use plans::plan::{self, Link};
use refusals::Refusal;
use std::test::Fail;
use weights::plain::Plain;

// The answer by a queue with the given choice.
fn by_choice(tie: Tie) -> Result<Seen, Refusal> {
    let mut memory = [Link::<Plain>::blank(); plan::LINKS];
    let mut filing = Filing::open(&mut memory);
    enter_units(&mut filing, 6)?;
    join(&mut filing, THREE_BY_THREE)?;
    let mut queue = TiedQueue::<Plain>::new(tie);
    asked(&mut filing, &mut queue, None)
}

// Every degree is 3, and no pair meets a test. The last group that is taken has key 3, and the one taken before it is its
// pair: lowest first 0, 3, 1, 4, 2, 5 are taken, highest first 5, 2, 4, 1, 3, 0.
#[test]
fn either_choice_is_allowed(rt: HostRuntime) -> Result<(), Fail> {
    let lowest = by_choice(Tie::Lowest)?;
    let highest = by_choice(Tie::Highest)?;
    assert_eq!(rt; (lowest.figure, highest.figure), (3, 3));
    assert_eq!(rt; lowest.record[0], entry(2, 5, Ground::Scan, 1));
    assert_eq!(rt; highest.record[0], entry(0, 3, Ground::Scan, 1));
    Ok(())
}
