// A draft as a plan, written, read back and written again.
ghost use Rattle.std.specs.List.{list_any};
ghost use Rattle.std.specs.Prelude.{◌≡◌, ◌≢◌, ◌==◌, IfOk, None, Some, if◌then◌else◌, nat_lt, vec_len};

use crate::drafts::Draft;
use crate::encoder::{encode, refusal};
use plans::plan::Plan;
use readers::read::read;
use refusals::Refusal;
use samples::wire::{Wire, is_made_of};
use std::alloc::{AllocError, Global};
use weights::weight::Weight;
use writers::write::write;

// A draft in one issue, with the bytes that its sheet is to have.
#[derive(Drop)]
pub struct Case<'a> {
    heap: Global,
    pub draft: &'a Draft,
    // a number, since one that is no issue is to be refused
    issue: u16,
    pub sheet: Vec<u8>,
}

// What the lent bytes hold before write.
const UNTOUCHED: u8 = 0xA5;

// The mark is a byte, as the call takes it.
fn add_wire<W: Weight>(plan: &mut Plan<W>, wire: Wire) -> Result<(), Refusal> {
    let weight = W::from_parts(&[wire.parts.0, wire.parts.1])?;
    let link = plan.link(wire.ends.0, wire.ends.1, weight)?;
    plan.mark(link, u8::from(wire.serves))
}

// Makes the plan of a draft.
pub fn build<W: Weight>(plan: &mut Plan<W>, draft: &Draft) -> Result<(), Refusal> {
    plan.clear();
    for code in draft.codes.iter() {
        plan.enter(code.as_slice())?;
    }
    for wire in draft.wires.iter() {
        add_wire(plan, *wire)?;
    }
    Ok(())
}

// Whether bytes are a sheet and then, up to their end, as they were before.
fn holds(bytes: &[u8], sheet: &[u8]) -> bool {
    bytes
        .strip_prefix(sheet)
        .is_some_and(|rest| rest.iter().all(|byte| *byte == UNTOUCHED))
}

impl<'a> Case<'a> {
    pub fn new(heap: Global, draft: &'a Draft, issue: u16) -> Result<Case<'a>, AllocError>
        ensures draft { IfOk result (λ c. c.draft.now ≡ draft.now) }
        ensures issue { IfOk result (λ c. c.issue ≡ issue) }
    {
        let sheet = encode(heap, draft, issue)?;
        Ok(Case {
            heap,
            draft,
            issue,
            sheet,
        })
    }

    // The number that write into so many bytes is to be refused with, if any, as the encoder states it.
    pub fn refusal(&self, room: usize) -> Option<u8>
        ensures first { self.now.issue ≡ 1 → result ≡ (if list_any (λ code. vec_len code == 7) self.now.draft.now.codes.items then Some 16 else (if nat_lt room (vec_len self.now.sheet) then Some 17 else None)) }
        ensures second { self.now.issue ≡ 2 → result ≡ (if nat_lt room (vec_len self.now.sheet) then Some 17 else None) }
        ensures none { self.now.issue ≢ 1 → self.now.issue ≢ 2 → result ≡ Some 2 }
    {
        refusal(self.draft, self.issue, self.sheet.len(), room)
    }

    // Whether write into so many bytes answers and leaves what the encoder says.
    pub fn writes<W: Weight>(&self, plan: &Plan<W>, room: usize) -> Result<bool, AllocError> {
        let sheet = self.sheet.as_slice();
        let mut bytes = vec![in self.heap; UNTOUCHED; room]?;
        let reply = write(plan, self.issue, bytes.as_mut_slice());
        Ok(match (reply, self.refusal(room)) {
            (Ok(size), None) => size == sheet.len() && holds(bytes.as_slice(), sheet),
            (Err(why), Some(number)) => u8::from(why) == number && holds(bytes.as_slice(), &[]),
            _ => false,
        })
    }

    // Whether the sheet reads back as the draft's plan.
    pub fn reads<W: Weight>(&self, plan: &mut Plan<W>) -> bool {
        read(self.sheet.as_slice(), plan).is_ok()
            && is_made_of(
                plan,
                self.draft.codes.as_slice(),
                self.draft.wires.as_slice(),
            )
    }
}
