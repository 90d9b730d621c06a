// The marks of a division.
ghost use Rattle.std.specs.Prelude.{◌≡◌, ℕ, ◌<◌, ◌≤◌, Bool, length, drop, if◌then◌else◌, nat_eq, slice_index};
ghost use Rattle.cuts.specs.Divisions.{turned};
ghost use Rattle.contractions.specs.Progress.{Marks};

use tables::groups::Groups;

// 1 for a unit of the group, 0 for another: a byte, as marks lie in bytes that are lent.
fn mark_of(groups: &Groups, unit: usize, group: usize) -> u8
    requires { unit < groups.now.units }
    ensures { result ≡ (if nat_eq (slice_index groups.now.names unit) group then 1 else 0) }
{
    if groups.of(unit) == group { 1 } else { 0 }
}

// Each mark becomes that of the unit of its number.
fn mark_units(groups: &Groups, group: usize, marks: &mut [u8])
    requires { length marks.old ≤ groups.now.units }
    ensures length { length marks.new ≡ length marks.old }
    ensures marked { Marks (length marks.old) (λ x. nat_eq (slice_index groups.now.names x) group) marks.new }
{
    for (unit, mark) in marks.iter_mut().enumerate() {
        *mark = mark_of(groups, unit, group);
    }
}

// Marks the units of one group.
pub fn mark_group(groups: &Groups, group: usize, marks: &mut [u8])
    requires { groups.now.units ≤ length marks.old }
    ensures marked { Marks groups.now.units (λ x. nat_eq (slice_index groups.now.names x) group) marks.new }
    ensures rest { drop groups.now.units marks.new ≡ drop groups.now.units marks.old }
{
    let units = groups.units();
    mark_units(groups, group, &mut marks[0..units]);
}

// The mark of the other side: a byte, as marks lie in bytes that are lent.
fn other_mark(mark: u8) -> u8
    ensures { result ≡ (if nat_eq mark 0 then 1 else 0) }
{
    if mark == 0 { 1 } else { 0 }
}

// Each mark becomes that of the other side.
fn turn_all(marks: &mut [u8])
    ensures length { length marks.new ≡ length marks.old }
    ensures turned { (x : ℕ) → x < length marks.old → slice_index marks.new x ≡ (if nat_eq (slice_index marks.old x) 0 then 1 else 0) }
{
    for mark in marks {
        *mark = other_mark(*mark);
    }
}

// Turns the marks of all units over where unit 0 is marked.
pub fn turn_over(marks: &mut [u8])
    requires { 0 < length marks.old }
    ensures length { length marks.new ≡ length marks.old }
    ensures turned { (S : ℕ → Bool) → Marks (length marks.old) S marks.old → Marks (length marks.old) (turned S) marks.new }
{
    if marks[0] == 0 {
        return;
    }
    turn_all(marks);
}
