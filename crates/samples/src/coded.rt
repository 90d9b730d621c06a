// Codes by number.
ghost use Rattle.std.specs.Prelude.{◌≡◌, ◌%◌, IfOk};
ghost use Rattle.samples.specs.Coded.{code_bytes, letter, tail};

use std::alloc::{AllocError, Global};

// The letter of a code whose digits show a number.
fn letter(middle: usize) -> &'static str
    ensures { result.now ≡ letter (middle % 4) }
{
    match middle % 4 {
        0 => "P",
        1 => "C",
        2 => "B",
        _ => "U",
    }
}

// What stands behind the six characters of a code with a number.
fn tail(number: usize) -> &'static str
    ensures { result.now ≡ tail (number % 2) }
{
    if number % 2 == 0 { "" } else { "A" }
}

// The code with a number. An odd one has the six characters of the even one before it, and a seventh.
pub fn code(heap: Global, number: usize) -> Result<Vec<u8>, AllocError>
    ensures { IfOk result (λ code. code.items ≡ code_bytes number) }
{
    let middle = number / 2;
    let letter = letter(middle);
    let tail = tail(number);
    let text = format!(in heap; "{letter}{middle:04}Z{tail}")?;
    text.as_bytes().to_vec(heap)
}
