// The bytes of a sheet, from docs/SHEET.md alone and with nothing of the library.
ghost use Rattle.std.specs.List.{list_any};
ghost use Rattle.std.specs.Prelude.{◌≡◌, ◌≤◌, ◌≢◌, ◌==◌, None, Some, if◌then◌else◌, nat_lt, vec_len};

use crate::drafts::Draft;
use samples::wire::WeightKind;
use std::alloc::{AllocError, Global};

// A number in so many bytes, low byte first.
fn push_number(bytes: &mut Vec<u8>, number: usize, size: usize) -> Result<(), AllocError>
    requires { size ≤ 8 }
{
    bytes.extend_from_slice(&number.to_le_bytes()[..size])
}

// The sheet of a draft in issue 1 or 2.
pub fn encode(heap: Global, draft: &Draft, issue: u16) -> Result<Vec<u8>, AllocError> {
    let mut bytes = Vec::new(heap);
    bytes.extend_from_slice(&[0x48, 0x4E, 0x57])?;
    push_number(&mut bytes, issue as usize, 2)?;
    bytes.push(match draft.kind {
        WeightKind::Plain => 1,
        WeightKind::Ranked => 2,
    })?;
    push_number(&mut bytes, draft.codes.len(), 1)?;
    push_number(&mut bytes, draft.wires.len(), 2)?;
    for code in draft.codes.iter() {
        bytes.extend_from_slice(code.as_slice())?;
        if issue == 2 && code.len() == 6 {
            bytes.push(0)?;
        }
    }
    for wire in draft.wires.iter() {
        push_number(&mut bytes, wire.ends.0, 1)?;
        push_number(&mut bytes, wire.ends.1, 1)?;
        bytes.push(u8::from(wire.serves))?;
        push_number(&mut bytes, wire.parts.0 as usize, 4)?;
        if draft.kind == WeightKind::Ranked {
            push_number(&mut bytes, wire.parts.1 as usize, 4)?;
        }
    }
    Ok(bytes)
}

// Whether some code has seven characters.
fn any_long(codes: &[Vec<u8>]) -> bool
    ensures { result ≡ list_any (λ code. vec_len code == 7) codes.now }
{
    codes.iter().any(|code| code.len() == 7)
}

// The number for too little room.
fn short(size: usize, room: usize) -> Option<u8>
    ensures { result ≡ (if nat_lt room size then Some 17 else None) }
{
    if room < size { Some(17) } else { None }
}

// The number that write is to be refused with, if any: a number, since nothing here is the library's.
pub fn refusal(draft: &Draft, issue: u16, size: usize, room: usize) -> Option<u8>
    ensures first { issue ≡ 1 → result ≡ (if list_any (λ code. vec_len code == 7) draft.now.codes.items then Some 16 else (if nat_lt room size then Some 17 else None)) }
    ensures second { issue ≡ 2 → result ≡ (if nat_lt room size then Some 17 else None) }
    ensures none { issue ≢ 1 → issue ≢ 2 → result ≡ Some 2 }
{
    match issue {
        1 => {
            if any_long(draft.codes.as_slice()) {
                Some(16)
            } else {
                short(size, room)
            }
        }
        2 => short(size, room),
        _ => Some(2),
    }
}
