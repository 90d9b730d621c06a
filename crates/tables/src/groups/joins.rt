// Groups at the start, and what a merger makes of them.
ghost use Rattle.std.specs.Prelude.{◌≡◌, ℕ, ◌+◌, ◌<◌, ◌≤◌, true, false, not, ◌&&◌, ◌||◌, ◌==◌, List, [], ◌∷◌, ◌++◌, length, if◌then◌else◌, nat_eq, slice_index, slice_index_or};
ghost use Rattle.cuts.specs.declared.entry.Entry.{Entry};
ghost use Rattle.cuts.specs.Groups.{Joins, stands};
ghost use Rattle.tables.specs.Meaning.{Tracks};

use crate::groups::Groups;

impl Groups {
    // At first each unit is a group.
    pub fn single(units: usize) -> Groups
        requires { units ≤ 64 }
        ensures { Tracks units [] result }
    {
        let mut standing = [false; 64];
        let mut names = [0; 64];
        standing[0..units].fill(true);
        name_apart(&mut names[0..units]);
        Groups {
            units,
            left: units,
            standing,
            names,
        }
    }

    // How many units there are.
    pub fn units(&self) -> usize
        ensures { result ≡ self.now.units }
    {
        self.units
    }

    // How many groups stand.
    pub fn left(&self) -> usize
        ensures { result ≡ self.now.left }
    {
        self.left
    }

    // Whether a group stands.
    pub fn stands(&self, group: usize) -> bool
        requires { group < self.now.units }
        ensures { result ≡ slice_index_or self.now.standing group false }
    {
        self.standing[group]
    }

    // Whether a group stands and is neither of a pair.
    pub fn is_third(&self, u: usize, v: usize, w: usize) -> bool
        requires { w < self.now.units }
        ensures { result ≡ (slice_index_or self.now.standing w false && not (w == u || w == v)) }
    {
        self.stands(w) && w != u && w != v
    }

    // The group of a unit.
    pub fn of(&self, unit: usize) -> usize
        requires { unit < self.now.units }
        ensures value { result ≡ slice_index self.now.names unit }
        ensures bound { result < self.now.units }
    {
        self.names[unit]
    }

    // The units of `high` join those of `low`.
    pub fn join(&mut self, low: usize, high: usize)
        requires low { low < self.old.units }
        requires high { high < self.old.units }
        requires left { 0 < self.old.left }
        ensures units { self.new.units ≡ self.old.units }
        ensures left { self.new.left + 1 ≡ self.old.left }
        ensures tracks { (n : ℕ) (es : List Entry) (e : Entry) → Joins n [] es → stands n es low ≡ true → stands n es high ≡ true → low < high → e.low ≡ low → e.high ≡ high → Tracks n es self.old → Tracks n (es ++ (e ∷ [])) self.new }
    {
        let units = self.units;
        rename(&mut self.names[0..units], low, high);
        self.standing[high] = false;
        self.left -= 1;
    }
}

// Every `high` among names becomes `low`.
fn rename(names: &mut [usize], low: usize, high: usize)
    ensures length { length names.new ≡ length names.old }
    ensures renamed { (x : ℕ) → x < length names.old → slice_index names.new x ≡ (if nat_eq (slice_index names.old x) high then low else slice_index names.old x) }
{
    for name in names {
        if *name == high {
            *name = low;
        }
    }
}

// Each unit gets its own number for a name.
fn name_apart(names: &mut [usize])
    ensures length { length names.new ≡ length names.old }
    ensures named { (x : ℕ) → x < length names.old → slice_index names.new x ≡ x }
{
    for (unit, name) in names.iter_mut().enumerate() {
        *name = unit;
    }
}
