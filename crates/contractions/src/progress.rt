// How far the work has come.

// The lightest degree so far, and how many mergers and scans there were.
#[derive(Clone, Copy)]
pub struct Progress<W> {
    pub best: W,
    pub mergers: usize,
    pub scans: usize,
}
