// The pairs that a scan found.
ghost use Rattle.std.specs.Prelude.{◌≡◌, ℕ, ◌+◌, ◌<◌, ◌≤◌, length, slice_index_or};

use tables::groups::Groups;

pub mod notes;

// Found pairs in order, without those whose groups earlier pairs bring together already.
#[derive(Drop)]
pub struct Found {
    // the groups that the pairs so far would make
    classes: Groups,
    // memory is fixed, so the pairs lie in an array, with their number beside it
    count: usize,
    pairs: [(usize, usize); 64],
    ghost sized: { length pairs ≡ 64 },
    ghost counted: { count + classes.left ≤ 64 },
    ghost inside: { (k : ℕ) → k < count → ((slice_index_or pairs k (0, 0)).0 < classes.units) × ((slice_index_or pairs k (0, 0)).1 < classes.units) },
}
