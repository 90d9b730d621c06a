// Damaged sheets: each is refused at its first fault, and the plan stays as it was, with its kept marks.
use crate::bench::*;
use crate::example::SHEET;
use filings::filing::Filing;
use plans::plan::{self, Link};
use refusals::Refusal;
use sheets::fault::{Fault, Part};
use std::process::Abort;
use std::test::Fail;
use weights::plain::Plain;

// One byte of the sheet of four units that is changed, how many bytes of the sheet are read, and the fault.
#[derive(Clone, Copy)]
struct Damage {
    at: usize,
    byte: u8,
    len: usize,
    fault: Fault,
}

fn changed(at: usize, byte: u8, refusal: Refusal, place: usize, part: Part) -> Damage {
    Damage {
        at,
        byte,
        len: SHEET.len(),
        fault: Fault {
            refusal,
            place,
            part,
        },
    }
}

// The sheet of four units with one byte changed, and U10009 for U10000, so that a plan read from it is another one.
fn damaged(at: usize, byte: u8) -> [u8; 61] {
    let mut bytes = SHEET;
    bytes[14] = b'9';
    if let Some(old) = bytes.get_mut(at) {
        *old = byte;
    }
    bytes
}

// Checks the fault of each damage.
fn refuses(rt: &impl Abort, damages: &[Damage]) -> Result<(), Fail> {
    let mut memory = [Link::<Plain>::blank(); plan::LINKS];
    let mut filing = Filing::open(&mut memory);
    begin(rt, &mut filing)?;
    for damage in damages {
        let bytes = damaged(damage.at, damage.byte);
        let len = damage.len.min(SHEET.len());
        assert_eq!(rt; filing.read(&bytes[0..len]).err(), Some(damage.fault));
        unchanged(rt, &mut filing)?;
    }
    Ok(())
}

#[test]
fn faults_in_the_head(rt: HostRuntime) -> Result<(), Fail> {
    refuses(
        &rt,
        &[
            changed(0, 0x68, Refusal::NotASheet, 0, Part::Head),
            changed(4, 1, Refusal::UnknownIssue, 3, Part::Head),
            changed(5, 2, Refusal::OtherKind, 5, Part::Head),
            changed(6, 65, Refusal::Full, 6, Part::Head),
            // 4 and 2 × 256 are 516 links
            changed(8, 2, Refusal::Full, 7, Part::Head),
        ],
    )
}

#[test]
fn faults_in_units_and_links(rt: HostRuntime) -> Result<(), Fail> {
    refuses(
        &rt,
        &[
            changed(16, 0x61, Refusal::NotACode, 15, Part::Unit(1)),
            changed(26, 0x31, Refusal::CodeTaken, 21, Part::Unit(2)),
            changed(33, 4, Refusal::NoSuchUnit, 33, Part::Link(0)),
            changed(41, 1, Refusal::SelfLink, 41, Part::Link(1)),
            changed(56, 2, Refusal::BadMark, 56, Part::Link(3)),
            changed(57, 0, Refusal::NoWeight, 57, Part::Link(3)),
            // 16 × 65,536 is above 1,000,000
            changed(59, 16, Refusal::OverLimit, 57, Part::Link(3)),
        ],
    )
}

#[test]
fn faults_of_length(rt: HostRuntime) -> Result<(), Fail> {
    let whole = changed(7, 5, Refusal::Truncated, 61, Part::Link(4));
    let cut = changed(0, 0x48, Refusal::Truncated, 57, Part::Link(3));
    let empty = changed(0, 0x48, Refusal::Truncated, 0, Part::Head);
    refuses(
        &rt,
        &[
            whole,
            Damage { len: 60, ..cut },
            Damage { len: 0, ..empty },
            changed(7, 3, Refusal::TrailingBytes, 54, Part::End),
        ],
    )
}
