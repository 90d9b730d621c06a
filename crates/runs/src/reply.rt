// What a plan replies.
use cuts::entry::Entry;
use refusals::Refusal;
use sheets::fault::Fault;

// The reply to a call. A unit or a link that is new is answered by its number.
#[derive(Drop)]
pub enum Reply<W> {
    Entered(usize),
    Linked(usize),
    Done,
    Weighed(W),
    Written(Vec<u8>),
    // the marks are one for each unit, and the record has one entry for each merger
    Answered {
        figure: W,
        marks: Vec<u8>,
        record: Vec<Entry>,
        scans: usize,
        // a flag, as in the answer
        kept: bool,
    },
    Refused(Refusal),
    // a refused reading, with the place and the part of the sheet
    Faulty(Fault),
}
