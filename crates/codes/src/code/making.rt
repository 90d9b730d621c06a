// Codes made from characters.
ghost use Rattle.std.specs.Prelude.{◌≡◌, true, false, is_ok, IfOk, codes, Decides, MatchResult};
ghost use Rattle.codes.specs.Code.{Code, is_code};
ghost use Rattle.codes.specs.Held.{bytes_of};

use crate::code::FaultCode;
use crate::rule::is_code;
use refusals::Refusal;

impl FaultCode {
    // The code with these characters, refused (7) where they are none.
    pub fn parse(text: &[u8]) -> Result<FaultCode, Refusal>
        ensures rule { Decides (is_ok result) (Code text.now) }
        ensures cases { MatchResult result (λ c. (is_code text.now ≡ true) × (bytes_of c ≡ text.now)) (λ e. (is_code text.now ≡ false) × (e ≡ Refusal.NotACode)) }
        ensures only { IfOk result (λ c. (d : FaultCode) → bytes_of d ≡ text.now → d ≡ c) }
    {
        if !is_code(text) {
            return Err(Refusal::NotACode);
        }
        Ok(holding(text))
    }

    // A fixed code, which fills unused places of a table.
    pub fn blank() -> FaultCode
        ensures { bytes_of result ≡ codes "P00000" }
    {
        FaultCode {
            bytes: *b"P00000\0",
            len: 6,
        }
    }
}

// The one value with these characters.
fn holding(text: &[u8]) -> FaultCode
    requires { is_code text.now ≡ true }
    ensures chars { bytes_of result ≡ text.now }
    ensures only { (d : FaultCode) → bytes_of d ≡ text.now → d ≡ result }
{
    let len = text.len();
    let mut bytes = [0; 7];
    bytes[0..len].copy_from_slice(text);
    FaultCode { bytes, len }
}
