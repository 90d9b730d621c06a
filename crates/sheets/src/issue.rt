// The two issues of the format.
ghost use Rattle.std.specs.Prelude.{◌≡◌};
ghost use Rattle.sheets.specs.Format.{size_of_code, issue_number};
ghost use Rattle.sheets.specs.Faults.{Named};

use refusals::Refusal;

// The issue, by which codes have six or seven bytes.
#[derive(Clone, Copy, PartialEq, Eq, Debug)]
pub enum Issue {
    First = 1,
    Second = 2,
}

impl Issue {
    // The number that stands for the issue in a sheet.
    pub fn number(self) -> u16
        ensures { result ≡ issue_number self }
    {
        self as u16
    }

    // How many bytes a code takes.
    pub fn code_size(self) -> usize
        ensures { result ≡ size_of_code self }
    {
        match self {
            Issue::First => 6,
            Issue::Second => 7,
        }
    }
}

impl From<Issue> for u16 {
    ghost from_gives = { λ issue number. number ≡ issue_number issue };

    fn from(issue: Issue) -> u16 {
        issue.number()
    }
}

// The issue with a number: 2 if there is none.
impl TryFrom<u16> for Issue {
    type Error = Refusal;

    ghost try_from_gives = { Named };

    fn try_from(number: u16) -> Result<Issue, Refusal> {
        match number {
            1 => Ok(Issue::First),
            2 => Ok(Issue::Second),
            _ => Err(Refusal::UnknownIssue),
        }
    }
}
