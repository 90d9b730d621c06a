// What each edit refuses, in the order of its checks. A refused edit changes nothing.
use crate::bench::*;
use filings::filing::Filing;
use plans::plan::{self, Link};
use std::test::Fail;
use weights::plain::Plain;

#[test]
fn enter_and_recode(rt: HostRuntime) -> Result<(), Fail> {
    play(
        &rt,
        &[
            Step::Begin,
            Step::Refuse(Edit::Enter(*b"X12345"), 7),
            Step::Refuse(Edit::Enter(*b"U10003"), 8),
            Step::Refuse(Edit::Recode(4, *b"X12345"), 9),
            Step::Refuse(Edit::Recode(0, *b"X12345"), 7),
            Step::Refuse(Edit::Recode(0, *b"U10001"), 8),
            // a unit may be given the code it has
            Step::Make(Edit::Recode(0, *b"U10000")),
            Step::Unchanged,
        ],
    )
}

#[test]
fn codes_of_other_lengths(rt: HostRuntime) -> Result<(), Fail> {
    let mut memory = [Link::<Plain>::blank(); plan::LINKS];
    let mut filing = Filing::open(&mut memory);
    assert_eq!(rt; refused(filing.enter(b"U1000")), Some(7));
    assert_eq!(rt; refused(filing.enter(b"U1000123")), Some(7));
    filing.enter(b"U10001A")?;
    assert_eq!(rt; filing.enter(b"U10001B")?, 1);
    Ok(())
}

#[test]
fn a_65th_unit(rt: HostRuntime) -> Result<(), Fail> {
    let mut memory = [Link::<Plain>::blank(); plan::LINKS];
    let mut filing = Filing::open(&mut memory);
    enter_units(&mut filing, 64)?;
    follow(
        &rt,
        &mut filing,
        &[
            Step::Refuse(Edit::Enter(*b"X12345"), 7),
            Step::Refuse(Edit::Enter(*b"U10063"), 8),
            Step::Refuse(Edit::Enter(*b"U10064"), 6),
            Step::Make(Edit::Recode(63, *b"U10064")),
            Step::Refuse(Edit::Enter(*b"U10063"), 6),
        ],
    )
}

#[test]
fn link(rt: HostRuntime) -> Result<(), Fail> {
    play(
        &rt,
        &[
            Step::Begin,
            Step::Refuse(Edit::Link(4, 4, 0), 9),
            Step::Refuse(Edit::Link(0, 4, 1), 9),
            Step::Refuse(Edit::Link(1, 1, 0), 10),
            Step::Refuse(Edit::Link(0, 1, 0), 11),
            // the four links come to 10
            Step::Refuse(Edit::Link(0, 1, 999_991), 12),
            Step::Unchanged,
            Step::Make(Edit::Link(0, 1, 999_990)),
            Step::Refuse(Edit::Link(0, 1, 1), 12),
        ],
    )
}

// 999,489 and 511 links of 1 come to 1,000,000.
#[test]
fn a_513th_link(rt: HostRuntime) -> Result<(), Fail> {
    let mut memory = [Link::<Plain>::blank(); plan::LINKS];
    let mut filing = Filing::open(&mut memory);
    enter_units(&mut filing, 2)?;
    join(&mut filing, &[(0, 1, 999_489)])?;
    join(&mut filing, &[(0, 1, 1); 511])?;
    follow(
        &rt,
        &mut filing,
        &[
            Step::Refuse(Edit::Link(0, 1, 0), 11),
            Step::Refuse(Edit::Link(0, 1, 1), 6),
            Step::Make(Edit::Strike(511)),
            Step::Refuse(Edit::Link(0, 1, 2), 12),
            Step::Make(Edit::Link(0, 1, 1)),
            Step::Weakest(false, 1_000_000),
        ],
    )
}

#[test]
fn strike_reweigh_and_mark(rt: HostRuntime) -> Result<(), Fail> {
    play(
        &rt,
        &[
            Step::Begin,
            Step::Refuse(Edit::Strike(4), 13),
            Step::Refuse(Edit::Reweigh(4, 0), 13),
            Step::Refuse(Edit::Reweigh(0, 0), 11),
            // the other three links come to 7
            Step::Refuse(Edit::Reweigh(0, 999_994), 12),
            Step::Refuse(Edit::Mark(4, 2), 13),
            Step::Refuse(Edit::Mark(0, 2), 14),
            Step::Unchanged,
            Step::Make(Edit::Reweigh(0, 999_993)),
            Step::Refuse(Edit::Link(0, 1, 1), 12),
            // an amount counts out of service too
            Step::Make(Edit::Mark(0, 0)),
            Step::Refuse(Edit::Link(0, 1, 1), 12),
            // and is free once the link is gone
            Step::Make(Edit::Strike(0)),
            Step::Make(Edit::Link(0, 1, 3)),
            Step::Weakest(false, 3),
        ],
    )
}

// Marks of four units: 15 below two units, 14, then 15.
#[test]
fn weigh(rt: HostRuntime) -> Result<(), Fail> {
    play(
        &rt,
        &[
            Step::Make(Edit::Enter(*b"U10000")),
            Step::Weigh(&[2, 2, 2, 2], Err(15)),
            Step::Make(Edit::Enter(*b"U10001")),
            Step::Weigh(&[0, 0, 0, 0], Err(14)),
            Step::Begin,
            Step::Weigh(&[0, 0, 0, 2], Err(14)),
            Step::Weigh(&[0, 0, 0, 0], Err(15)),
            Step::Weigh(&[1, 1, 1, 1], Err(15)),
            Step::Weigh(&[1, 1, 0, 0], Ok(3)),
            // all four links are cut
            Step::Weigh(&[0, 1, 0, 1], Ok(10)),
            Step::Unchanged,
        ],
    )
}
