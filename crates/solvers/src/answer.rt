// What is answered to a question for the weakest division.

// The figure, how many mergers and scans it took, and whether kept marks were answered. The marks
// and the record stand in the memory that was lent for them.
#[derive(Clone, Copy)]
pub struct Answer<W> {
    pub figure: W,
    pub mergers: usize,
    pub scans: usize,
    // a flag, as the rules have it: mergers and scans are 0 then
    pub kept: bool,
}
