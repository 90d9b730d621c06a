// Trials: the figure with one link out of service.
use crate::bench::*;
use cuts::ground::Ground;
use filings::filing::Filing;
use plans::plan::{self, Link};
use std::test::Fail;
use weights::plain::Plain;

// Without 2–3:4 the degrees are 5, 4, 1, 2: best is 1. Units 0 and 1 share 3, ground 1; their group weighs 3 and
// shares 1 with unit 2, ground 1.
#[test]
fn beside_kept_marks(rt: HostRuntime) -> Result<(), Fail> {
    let mut memory = [Link::<Plain>::blank(); plan::LINKS];
    let mut filing = Filing::open(&mut memory);
    begin(&rt, &mut filing)?;
    let expected = Seen {
        figure: 1,
        marks: [0, 0, 1, 0, UNTOUCHED, UNTOUCHED],
        record: [
            entry(0, 1, Ground::Heavy, 0),
            entry(0, 2, Ground::Heavy, 0),
            BLANK,
            BLANK,
            BLANK,
            BLANK,
        ],
        mergers: 2,
        scans: 0,
        kept: false,
    };
    assert_eq!(rt; by_list(&mut filing, Some(2))?, expected);
    unchanged(&rt, &mut filing)
}

// A trial keeps no marks, and may be of a link that is out already.
#[test]
fn without_kept_marks(rt: HostRuntime) -> Result<(), Fail> {
    play(
        &rt,
        &[
            Step::Begin,
            // 2–3:7 on one side is in, and then out; the marks are dropped
            Step::Make(Edit::Link(2, 3, 7)),
            Step::Make(Edit::Mark(4, 0)),
            Step::Trial(4, Ok(3)),
            // without 1–2:1 it is 1–0–3–2 with 3, 2 and 4
            Step::Trial(1, Ok(2)),
            // without 0–1:3 unit 1 has 1–2:1
            Step::Trial(0, Ok(1)),
            Step::Weakest(false, 3),
            Step::Make(Edit::Strike(4)),
            Step::Unchanged,
        ],
    )
}

// No such link comes before short memory: six marks are lent, and seven units need seven.
#[test]
fn refusals(rt: HostRuntime) -> Result<(), Fail> {
    play(
        &rt,
        &[
            Step::Begin,
            Step::Trial(4, Err(13)),
            Step::Unchanged,
            Step::Make(Edit::Enter(*b"U10004")),
            Step::Make(Edit::Enter(*b"U10005")),
            Step::Make(Edit::Enter(*b"U10006")),
            Step::Trial(4, Err(13)),
            Step::Trial(0, Err(17)),
        ],
    )
}
