// From the bytes of a sheet to the lines that the program prints.
ghost use Rattle.std.specs.Prelude.{◌≡◌, ◌≢◌, IfOk, Some, slice_get};
ghost use Rattle.std.specs.String.{string_bytes};
ghost use Rattle.refusals.specs.Numbers.{number_of};
ghost use Rattle.reports.specs.Lines.{line, TellsFault};
ghost use Rattle.weights.specs.contracts.plain.PlainWeight.TheImpl.{ghosts as plainKind};
ghost use Rattle.weights.specs.contracts.ranked.RankedWeight.TheImpl.{ghosts as rankedKind};

use answers::weakest::weakest;
use cuts::entry::Entry;
use cuts::ground::Ground;
use filings::filing::Filing;
use plans::plan::{LINKS, Link, UNITS, Unit};
use queues::list::{ListQueue, Slot};
use queues::queue::GROUPS;
use refusals::Refusal;
use std::alloc::{AllocError, Global};
use std::fmt::Write;
use weights::plain::Plain;
use weights::ranked::Ranked;
use weights::weight::Weight;

// An entry that fills memory before it is lent.
const BLANK: Entry = Entry {
    low: 0,
    high: 0,
    ground: Ground::Heavy,
    scan: 0,
};

// The lines of an answer: one for each part of the figure, one for each marked code, and one for each entry of the record,
// with the two groups, the ground and the scan.
fn shown<W: Weight>(
    heap: Global,
    figure: W,
    units: &[Unit],
    marks: &[u8],
    record: &[Entry],
) -> Result<String, AllocError> {
    let mut text = String::new(heap);
    for part in 0..W::PARTS {
        writeln!(text, "{}", figure.part(part))?;
    }
    for (unit, mark) in units.iter().zip(marks) {
        if *mark == 1 {
            writeln!(text, "{}", unit.code)?;
        }
    }
    for entry in record {
        writeln!(text, "{entry}")?;
    }
    Ok(text)
}

// The line of a refusal: its number.
fn refused(heap: Global, why: Refusal) -> Result<String, AllocError>
    ensures { IfOk result (λ text. string_bytes text ≡ line (number_of why)) }
{
    format!(in heap; "{}\n", why.number())
}

// The lines of a sheet for one weight kind: figure, marked codes and record, or only a refusal's number.
fn report_as<W: Weight>(heap: Global, bytes: &[u8]) -> Result<String, AllocError>
    ensures { IfOk result (λ text. TellsFault W.Weight bytes.now (string_bytes text)) }
{
    let mut links = vec![in heap; Link::<W>::blank(); LINKS]?;
    let mut slots = vec![in heap; Slot::<W>::empty(); GROUPS]?;
    let mut table = vec![in heap; W::nothing(); UNITS * UNITS]?;
    let mut entries = vec![in heap; BLANK; UNITS]?;
    let mut marks = vec![in heap; 0u8; UNITS]?;
    let mut filing = Filing::open(links.as_mut_slice());
    if let Err(fault) = filing.read(bytes) {
        return refused(heap, fault.refusal);
    }
    let mut queue = ListQueue::over(slots.as_mut_slice());
    match weakest(
        &mut filing,
        &mut queue,
        marks.as_mut_slice(),
        entries.as_mut_slice(),
        table.as_mut_slice(),
    ) {
        Err(why) => refused(heap, why),
        Ok(answer) => shown(
            heap,
            answer.figure,
            filing.plan().units(),
            marks.as_slice(),
            &entries.as_slice()[0..answer.mergers],
        ),
    }
}

// The lines that the program prints of a sheet: ranked weights if its kind byte is 2, else plain ones.
pub fn report(heap: Global, bytes: &[u8]) -> Result<String, AllocError>
    ensures ranked { slice_get bytes.now 5 ≡ Some 2 → IfOk result (λ text. TellsFault rankedKind bytes.now (string_bytes text)) }
    ensures plain { slice_get bytes.now 5 ≢ Some 2 → IfOk result (λ text. TellsFault plainKind bytes.now (string_bytes text)) }
{
    match bytes.get(5) {
        Some(kind) if *kind == Ranked::KIND => report_as::<Ranked>(heap, bytes),
        _ => report_as::<Plain>(heap, bytes),
    }
}
