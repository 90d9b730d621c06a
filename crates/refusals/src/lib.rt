// Why a call was refused, with the number by which users know each reason.
#![tactic(auto)]

ghost use Rattle.std.specs.Prelude.{◌≡◌};
ghost use Rattle.refusals.specs.Numbers.{number_of};

pub mod memory;

// One case for each number. `docs/RULES.md` says which call refuses with which, and in which order.
#[derive(Clone, Copy, PartialEq, Eq, Debug)]
pub enum Refusal {
    // the first three bytes of a sheet are not `HNW`
    NotASheet = 1,
    // a sheet's issue is neither 1 nor 2
    UnknownIssue = 2,
    // the kind byte is not that of the plan
    OtherKind = 3,
    // the sheet ends inside a field
    Truncated = 4,
    // bytes stand after the last link
    TrailingBytes = 5,
    // a 65th unit or a 513th link
    Full = 6,
    // the characters are no fault code
    NotACode = 7,
    // another unit bears the code
    CodeTaken = 8,
    // there is no such unit or group
    NoSuchUnit = 9,
    // both ends of a link are one unit
    SelfLink = 10,
    // a link's weight is nothing
    NoWeight = 11,
    // a limit on amounts is passed
    OverLimit = 12,
    // there is no such link
    NoSuchLink = 13,
    // a mark is neither 0 nor 1, or there is a wrong count of marks
    BadMark = 14,
    // there are too few units to divide, or none or all are marked
    NoDivision = 15,
    // a code of seven characters does not fit issue 1
    LongCode = 16,
    // lent memory is under the size needed
    ShortMemory = 17,
    // the group waits already
    AlreadyWaiting = 18,
    // the group is not waiting
    NotWaiting = 19,
}

impl Refusal {
    // The number that stands for the refusal outside.
    pub fn number(self) -> u8
        ensures { result ≡ number_of self }
    {
        self as u8
    }
}

// The same number, as a conversion.
impl From<Refusal> for u8 {
    ghost from_gives = { λ refusal number. number ≡ number_of refusal };

    fn from(refusal: Refusal) -> u8 {
        refusal.number()
    }
}
