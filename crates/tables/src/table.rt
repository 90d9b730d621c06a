// The weight table: a row of weights for each unit. The entry of two groups is their joint weight;
// the entry of a group with itself is its degree.
ghost use Rattle.std.specs.Prelude.{◌*◌, ◌≤◌, length};

pub mod cells;
pub mod links;
pub mod mergers;

// No heap: the table lies in lent memory, row after row, and what lies past its rows is left alone.
#[derive(Drop)]
pub struct Table<'a, W> {
    weights: &'a mut [W],
    units: usize,
    ghost few: { units ≤ 64 },
    ghost room: { units * units ≤ length weights.now },
}
