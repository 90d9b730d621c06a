// A fault code as a value.
ghost use Rattle.std.specs.Prelude.{◌≡◌, ℕ, ◌-◌, ◌≤◌, true, length, take, drop, replicate};
ghost use Rattle.codes.specs.Code.{is_code};

pub mod making;
pub mod reading;

// Its characters, and zeros behind them. Bytes with a length beside, since no code is on the heap.
#[derive(Clone, Copy)]
pub struct FaultCode {
    bytes: [u8; 7],
    len: usize,
    ghost size: { length bytes ≡ 7 },
    ghost within: { len ≤ 7 },
    ghost code: { is_code (take len bytes) ≡ true },
    ghost pad: { drop len bytes ≡ replicate (7 - len) 0 },
}
