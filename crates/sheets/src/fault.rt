// Where and why a sheet is not right.
use refusals::Refusal;

// The part of a sheet that a fault lies in.
#[derive(Clone, Copy, PartialEq, Eq, Debug)]
pub enum Part {
    Head,
    Unit(usize),
    Link(usize),
    End,
}

// The refusal, the index of the first byte of the field, and the part.
#[derive(Clone, Copy, PartialEq, Eq, Debug)]
pub struct Fault {
    pub refusal: Refusal,
    pub place: usize,
    pub part: Part,
}
