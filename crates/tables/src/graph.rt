// The weights and the groups of the work, as one view that the tests of a pair and a scan read.
ghost use Rattle.std.specs.Prelude.{◌*◌, ◌≤◌, length};

pub mod lightest;
pub mod reads;

use crate::groups::Groups;

// Weights that are lent to be read, a row for each unit of the groups; what lies past the rows is not read.
#[derive(Drop)]
pub struct Graph<'g, W> {
    weights: &'g [W],
    groups: &'g Groups,
    ghost room: { groups.now.units * groups.now.units ≤ length weights.now },
}
