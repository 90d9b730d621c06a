// What the tests share: filings over memory of their own, lent from the stack, and what is seen of them.
ghost use Rattle.std.specs.Prelude.{◌≡◌, ℕ, ◌≤◌};
ghost use Rattle.filings.specs.Filed.{Filed};
ghost use Rattle.weights.specs.contracts.plain.PlainWeight.TheImpl.{ghosts as plainKind};

use crate::example::{CODES, LINKS, SHEET};
use answers::trial::trial;
use answers::weakest::weakest;
use cuts::entry::Entry;
use cuts::ground::Ground;
use filings::filing::Filing;
use plans::plan::{self, Link};
use queues::list::{ListQueue, Slot};
use queues::queue::{GROUPS, PriorityQueue};
use refusals::Refusal;
use solvers::answer::Answer;
use std::process::Abort;
use std::test::Fail;
use weights::plain::Plain;
use weights::weight::Weight;

// An answer, with the memory that was lent for it: six marks and six entries. They are compared whole, since what is
// past the units and the mergers is to stay as it was.
#[derive(Clone, Copy, PartialEq, Eq, Debug)]
pub struct Seen {
    pub figure: u32,
    pub marks: [u8; 6],
    pub record: [Entry; 6],
    pub mergers: usize,
    pub scans: usize,
    pub kept: bool,
}

// What the memory for marks and for entries holds before a call.
pub const UNTOUCHED: u8 = 9;

pub const BLANK: Entry = Entry {
    low: UNTOUCHED,
    high: UNTOUCHED,
    ground: Ground::Scan,
    scan: UNTOUCHED,
};

// What is worked out about the plan of four units. Degrees 5, 4, 5, 6: best is 4. Units 0 and 1 share 3, and 4 is at
// most 3 + 3: ground 2. Their group weighs 5 + 4 - 6 = 3, the new best. It shares 1 with unit 2; with unit 3 beside
// them, 3 is at most 2 × (1 + 2) and 5 at most 2 × (1 + 4): ground 3.
pub const BEGUN: Seen = Seen {
    figure: 3,
    marks: [0, 0, 1, 1, UNTOUCHED, UNTOUCHED],
    record: [
        Entry {
            low: 0,
            high: 1,
            ground: Ground::Unbalanced,
            scan: 0,
        },
        Entry {
            low: 0,
            high: 2,
            ground: Ground::Triangle,
            scan: 0,
        },
        BLANK,
        BLANK,
        BLANK,
        BLANK,
    ],
    mergers: 2,
    scans: 0,
    kept: false,
};

// The answer from the marks that the plan of four units keeps.
pub const KEPT: Seen = Seen {
    figure: 3,
    marks: [0, 0, 1, 1, UNTOUCHED, UNTOUCHED],
    record: [BLANK; 6],
    mergers: 0,
    scans: 0,
    kept: true,
};

// Units 0, 1 and 2, each linked by 1 to 3, 4 and 5.
pub const THREE_BY_THREE: &[(usize, usize, u32)] = &[
    (0, 3, 1),
    (0, 4, 1),
    (0, 5, 1),
    (1, 3, 1),
    (1, 4, 1),
    (1, 5, 1),
    (2, 3, 1),
    (2, 4, 1),
    (2, 5, 1),
];

// One edit.
#[derive(Clone, Copy)]
pub enum Edit {
    Enter([u8; 6]),
    Recode(usize, [u8; 6]),
    Link(usize, usize, u32),
    Strike(usize),
    Reweigh(usize, u32),
    // a byte, since one that is no mark is to be refused
    Mark(usize, u8),
}

// One step of a test. Steps are data, not calls, so that a test is one table and each kind of call is proved once.
// A refusal stands by its number, as the rules give it.
#[derive(Clone, Copy)]
pub enum Step {
    // the plan of four units is read and worked out
    Begin,
    // an edit is accepted
    Make(Edit),
    // an edit is refused with a number
    Refuse(Edit, u8),
    // weigh answers so, or is refused with a number
    Weigh(&'static [u8], Result<u32, u8>),
    // the trial of a link gives this figure, or is refused with a number
    Trial(usize, Result<u32, u8>),
    // weakest answers with this kept flag and figure
    Weakest(bool, u32),
    // the plan of four units is as it began, and keeps its marks
    Unchanged,
}

pub fn entry(low: u8, high: u8, ground: Ground, scan: u8) -> Entry
    ensures low { result.low ≡ low }
    ensures high { result.high ≡ high }
    ensures under { result.ground ≡ ground }
    ensures scan { result.scan ≡ scan }
{
    Entry {
        low,
        high,
        ground,
        scan,
    }
}

// The number of a refusal, where there is one. This and `plain` stand in the tests of `drains` too, since a module of
// tests cannot be shared between crates.
pub fn refused<T: Drop>(outcome: Result<T, Refusal>) -> Option<u8> {
    outcome.err().map(|why| why.number())
}

fn plain(conductors: u32) -> Result<Plain, Refusal> {
    Plain::from_parts(&[conductors])
}

// Enters units U10000, U10001 and so on.
pub fn enter_units(filing: &mut Filing<Plain>, count: u8) -> Result<(), Refusal>
    requires { count ≤ 100 }
    ensures filed { Filed plainKind filing.old → Filed plainKind filing.new }
{
    for k in 0..count {
        // two digits by hand, so that nothing but a refusal can go wrong
        filing.enter(&[b'U', b'1', b'0', b'0', b'0' + k / 10, b'0' + k % 10])?;
    }
    Ok(())
}

// Makes each link in turn.
pub fn join(filing: &mut Filing<Plain>, links: &[(usize, usize, u32)]) -> Result<(), Refusal>
    ensures filed { Filed plainKind filing.old → Filed plainKind filing.new }
{
    for (first, second, conductors) in links {
        filing.link(*first, *second, plain(*conductors)?)?;
    }
    Ok(())
}

// Makes one edit.
fn make(filing: &mut Filing<Plain>, edit: Edit) -> Result<(), Refusal>
    ensures filed { Filed plainKind filing.old → Filed plainKind filing.new }
{
    match edit {
        Edit::Enter(code) => {
            filing.enter(&code)?;
            Ok(())
        }
        Edit::Recode(unit, code) => filing.recode(unit, &code),
        Edit::Link(first, second, conductors) => {
            filing.link(first, second, plain(conductors)?)?;
            Ok(())
        }
        Edit::Strike(link) => filing.strike(link),
        Edit::Reweigh(link, conductors) => filing.reweigh(link, plain(conductors)?),
        Edit::Mark(link, mark) => filing.mark(link, mark),
    }
}

// The weakest division, or that with one link out, in lent memory; a function of its own, as what a `match` does to the
// filing is not known after it.
fn answered<Q: PriorityQueue<Weight = Plain>>(
    filing: &mut Filing<Plain>,
    queue: &mut Q,
    without: Option<usize>,
    marks: &mut [u8],
    record: &mut [Entry],
    table: &mut [Plain],
) -> Result<Answer<Plain>, Refusal>
    requires { Q.PriorityQueue.sound queue.old }
    ensures filed { Filed plainKind filing.old → Filed plainKind filing.new }
{
    match without {
        None => weakest(filing, queue, marks, record, table),
        Some(link) => trial(filing, link, queue, marks, record, table),
    }
}

// The weakest division by a queue, or that with one link out. The random calls choose between both too, in memory from
// the heap and with what is seen of it, which tests on the stack cannot take from that program.
pub fn asked<Q: PriorityQueue<Weight = Plain>>(
    filing: &mut Filing<Plain>,
    queue: &mut Q,
    without: Option<usize>,
) -> Result<Seen, Refusal>
    requires { Q.PriorityQueue.sound queue.old }
    ensures filed { Filed plainKind filing.old → Filed plainKind filing.new }
{
    let mut marks = [UNTOUCHED; 6];
    let mut record = [BLANK; 6];
    let mut table = [Plain::nothing(); 36];
    let answer = answered(filing, queue, without, &mut marks, &mut record, &mut table)?;
    Ok(Seen {
        figure: answer.figure.amount(),
        marks,
        record,
        mergers: answer.mergers,
        scans: answer.scans,
        kept: answer.kept,
    })
}

// The weakest division, or that with one link out, by the list queue.
pub fn by_list(filing: &mut Filing<Plain>, without: Option<usize>) -> Result<Seen, Refusal>
    ensures filed { Filed plainKind filing.old → Filed plainKind filing.new }
{
    let mut slots = [Slot::<Plain>::empty(); GROUPS];
    let mut queue = ListQueue::over(&mut slots);
    asked(filing, &mut queue, without)
}

// Whether the plan is the one of four units.
fn is_example(filing: &Filing<Plain>) -> bool {
    let plan = filing.plan();
    let codes = plan
        .units()
        .iter()
        .zip(CODES)
        .all(|(unit, code)| unit.code.text() == code.as_slice());
    let links = plan.links().iter().zip(LINKS).all(|(link, joint)| {
        let ends = (link.first as usize, link.second as usize);
        link.in_service && (ends.0, ends.1, link.weight.amount()) == *joint
    });
    let counts = plan.unit_count() == CODES.len() && plan.link_count() == LINKS.len();
    counts && codes && links
}

// The answer about a plan with these links between so many units.
pub fn worked_out(units: u8, links: &[(usize, usize, u32)]) -> Result<Seen, Refusal>
    requires { units ≤ 100 }
{
    let mut memory = [Link::<Plain>::blank(); plan::LINKS];
    let mut filing = Filing::open(&mut memory);
    enter_units(&mut filing, units)?;
    join(&mut filing, links)?;
    by_list(&mut filing, None)
}

// Reads the plan of four units and works it out.
pub fn begin(rt: &impl Abort, filing: &mut Filing<Plain>) -> Result<(), Fail>
    ensures filed { Filed plainKind filing.old → Filed plainKind filing.new }
{
    filing.read(&SHEET)?;
    assert_eq!(rt; by_list(filing, None)?, BEGUN);
    Ok(())
}

// Checks that the plan of four units is as it began, and keeps its marks.
pub fn unchanged(rt: &impl Abort, filing: &mut Filing<Plain>) -> Result<(), Fail>
    ensures filed { Filed plainKind filing.old → Filed plainKind filing.new }
{
    assert!(rt; is_example(filing));
    assert_eq!(rt; by_list(filing, None)?, KEPT);
    Ok(())
}

// Checks the kept flag and the figure of weakest.
fn answers(rt: &impl Abort, filing: &mut Filing<Plain>, kept: bool, figure: u32) -> Result<(), Fail>
    ensures filed { Filed plainKind filing.old → Filed plainKind filing.new }
{
    let seen = by_list(filing, None)?;
    assert_eq!(rt; (seen.kept, seen.figure), (kept, figure));
    Ok(())
}

// The weight of a division, or the number of the refusal, as a step states it.
fn weighed(filing: &Filing<Plain>, marks: &[u8]) -> Result<u32, u8> {
    filing
        .weigh(marks)
        .map(|weight| weight.amount())
        .map_err(|why| why.number())
}

// The figure with one link out, or the number of the refusal, as a step states it.
fn tried(filing: &mut Filing<Plain>, link: usize) -> Result<u32, u8>
    ensures filed { Filed plainKind filing.old → Filed plainKind filing.new }
{
    by_list(filing, Some(link))
        .map(|seen| seen.figure)
        .map_err(|why| why.number())
}

fn take(rt: &impl Abort, filing: &mut Filing<Plain>, step: Step) -> Result<(), Fail>
    ensures filed { Filed plainKind filing.old → Filed plainKind filing.new }
{
    match step {
        Step::Begin => begin(rt, filing),
        Step::Make(edit) => {
            assert_eq!(rt; refused(make(filing, edit)), None);
            Ok(())
        },
        Step::Refuse(edit, why) => {
            assert_eq!(rt; refused(make(filing, edit)), Some(why));
            Ok(())
        },
        Step::Weigh(marks, outcome) => {
            assert_eq!(rt; weighed(filing, marks), outcome);
            Ok(())
        },
        Step::Trial(link, outcome) => {
            assert_eq!(rt; tried(filing, link), outcome);
            Ok(())
        },
        Step::Weakest(kept, figure) => answers(rt, filing, kept, figure),
        Step::Unchanged => unchanged(rt, filing),
    }
}

// Goes through the steps of a test.
pub fn follow(rt: &impl Abort, filing: &mut Filing<Plain>, steps: &[Step]) -> Result<(), Fail>
    ensures filed { Filed plainKind filing.old → Filed plainKind filing.new }
{
    for next in steps {
        take(rt, filing, *next)?;
    }
    Ok(())
}

// Goes through the steps of a test, from a plan with no units.
pub fn play(rt: &impl Abort, steps: &[Step]) -> Result<(), Fail> {
    let mut memory = [Link::<Plain>::blank(); plan::LINKS];
    let mut filing = Filing::open(&mut memory);
    follow(rt, &mut filing, steps)
}
