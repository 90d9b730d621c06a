// Which groups stand, and which group each unit is in. A group goes by its lowest unit.
ghost use Rattle.std.specs.Prelude.{◌≡◌, ℕ, ◌+◌, ◌<◌, ◌≤◌, slice_index};

pub mod joins;

#[derive(Drop)]
pub struct Groups {
    // how many units there are
    units: usize,
    // how many groups stand
    left: usize,
    // No heap: fixed memory for the most units there can be. Two arrays and not one of pairs, since a
    // merger goes over the names of all units as one slice, and clears the mark of one group.
    standing: [bool; 64],
    // the group of each unit
    names: [usize; 64],
    ghost few: { units ≤ 64 },
    ghost some: { left ≤ units },
    ghost named: { (x : ℕ) → x < units → slice_index names x < units },
}
