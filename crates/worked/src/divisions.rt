// Weakest divisions, worked out by hand.
use crate::bench::*;
use crate::example::{LINKS, RANKED_SHEET};
use answers::weakest::weakest;
use cuts::ground::Ground;
use filings::filing::Filing;
use plans::plan::{self, Link};
use queues::list::{ListQueue, Slot};
use queues::queue::GROUPS;
use refusals::Refusal;
use std::test::Fail;
use weights::ranked::Ranked;
use weights::weight::Weight;

#[test]
fn four_units(rt: HostRuntime) -> Result<(), Fail> {
    assert_eq!(rt; worked_out(4, LINKS)?, BEGUN);
    play(&rt, &[Step::Begin, Step::Unchanged])
}

#[test]
fn four_units_then_edits(rt: HostRuntime) -> Result<(), Fail> {
    play(
        &rt,
        &[
            Step::Begin,
            Step::Make(Edit::Link(2, 3, 7)),
            Step::Weakest(true, 3),
            // 0–3:2 is cut alone then
            Step::Make(Edit::Strike(1)),
            Step::Weakest(true, 2),
            // 1–2:1, 0–3:2 and 0–2:1 lie between 0, 1 and 2, 3; unit 1 alone has 3 + 1, and each other unit 6
            Step::Begin,
            Step::Make(Edit::Link(0, 2, 1)),
            Step::Weakest(false, 4),
        ],
    )
}

// Degrees 10, 11, 2, 11, 10: best is 2. Units 0 and 1 share 10, ground 1; their group weighs 1, the new best.
#[test]
fn five_units_in_a_row(rt: HostRuntime) -> Result<(), Fail> {
    let row = worked_out(5, &[(0, 1, 10), (1, 2, 1), (2, 3, 1), (3, 4, 10)])?;
    assert_eq!(rt; row.figure, 1);
    assert_eq!(rt; row.marks, [0, 0, 1, 1, 1, UNTOUCHED]);
    assert_eq!(rt; row.mergers, 3);
    assert_eq!(rt; row.record[0], entry(0, 1, Ground::Heavy, 0));
    Ok(())
}

// Of two units the one with the lower number is best, and marks are turned over where unit 0 would be marked.
#[test]
fn few_units(rt: HostRuntime) -> Result<(), Fail> {
    let two = worked_out(2, &[])?;
    assert_eq!(rt;
        two.marks,
        [0, 1, UNTOUCHED, UNTOUCHED, UNTOUCHED, UNTOUCHED]
    );
    assert_eq!(rt; (two.figure, two.mergers), (0, 0));
    assert_eq!(rt; refused(worked_out(1, &[])), Some(15));
    // seven units need seven marks, and six are lent
    assert_eq!(rt; refused(worked_out(7, &[])), Some(17));
    Ok(())
}

// Each degree is 3, and no pair meets a test. The scan takes 0, 3, 1, 4, 2; then 5 has 3, from 0, 1 and 2.
// The group 2 of both weighs 4 and shares 1 with 0, 1, 3 and 4. With 3 beside 0 and 2, 3 and 4 are at most
// 2 × (1 + 1): ground 3. That group weighs 5 and shares 1 with 1, and 2 with 3 and with 4: with 3 beside 0 and 1,
// 5 is at most 2 × (1 + 2) and 3 at most 2 × (1 + 1): ground 3. It then shares 3 with group 3: ground 1.
#[test]
fn three_by_three(rt: HostRuntime) -> Result<(), Fail> {
    let expected = Seen {
        figure: 3,
        marks: [0, 1, 1, 1, 1, 1],
        record: [
            entry(2, 5, Ground::Scan, 1),
            entry(0, 2, Ground::Triangle, 0),
            entry(0, 1, Ground::Triangle, 0),
            entry(0, 3, Ground::Heavy, 0),
            BLANK,
            BLANK,
        ],
        mergers: 4,
        scans: 1,
        kept: false,
    };
    assert_eq!(rt; worked_out(6, THREE_BY_THREE)?, expected);
    Ok(())
}

// The parts of the figure, and the marks. Not by `asked`, in whose answers a figure is one number and memory is for six
// units.
fn weakest_ranked(filing: &mut Filing<Ranked>) -> Result<((u32, u32), [u8; 3]), Refusal> {
    let mut slots = [Slot::<Ranked>::empty(); GROUPS];
    let mut queue = ListQueue::over(&mut slots);
    let mut marks = [UNTOUCHED; 3];
    let mut record = [BLANK; 3];
    let mut table = [Ranked::nothing(); 9];
    let figure = weakest(filing, &mut queue, &mut marks, &mut record, &mut table)?.figure;
    Ok(((figure.part(0), figure.part(1)), marks))
}

// 0–1:(1,0), 1–2:(0,9), 2–0:(0,5). Degrees (1,5), (1,9) and (0,14), of which the last is lightest; units 0 and 1
// share (1,0), which is heavier.
#[test]
fn ranked(rt: HostRuntime) -> Result<(), Fail> {
    let mut memory = [Link::<Ranked>::blank(); plan::LINKS];
    let mut filing = Filing::open(&mut memory);
    filing.read(RANKED_SHEET)?;
    assert_eq!(rt; weakest_ranked(&mut filing)?, ((0, 14), [0, 0, 1]));
    Ok(())
}
