// The marks that a plan keeps of its last weakest division, and what becomes of them by an edit.
ghost use Rattle.std.specs.Prelude.{◌≡◌, ℕ, ◌<◌, ◌≤◌, true, false, ◌&&◌, length, take};
ghost use Rattle.filings.specs.Edits.{ends_of, is_one_side, outlives, Within};

use plans::plan::Link;

// How a new weight compares with the old one. No `std::cmp::Ordering`: it names what the rules' table of kept marks asks, and
// `Weight` has its order as one test, `at_most`, which its laws speak of, where `Ord` would have laws of its own.
#[derive(Clone, Copy)]
pub enum Change {
    Equal,
    Heavier,
    Lighter,
}

// What decides over kept marks of a link as it was: its two units, and whether it was in service.
#[derive(Clone, Copy)]
pub struct Ends {
    pub first: usize,
    pub second: usize,
    pub in_service: bool,
}

impl<W: Copy> From<Link<W>> for Ends {
    ghost from_gives = { λ link ends. ends ≡ ends_of link };

    fn from(link: Link<W>) -> Ends {
        Ends {
            first: link.first as usize,
            second: link.second as usize,
            in_service: link.in_service,
        }
    }
}

// An accepted edit, with what decides over kept marks.
#[derive(Clone, Copy)]
pub enum Edit {
    Enter,
    Read,
    Recode,
    Link { first: usize, second: usize },
    // strike, and mark 0
    Out(Ends),
    // mark 1
    In(Ends),
    Reweigh(Ends, Change),
}

// Whether marks are kept, and the side of each unit. A flag with the sides beside it, as the rules name the form that
// matches it with the edit, and the sides stay as they were when it falls. That there are 64 sides stays in `Filed`: tried as a
// ghost field, with which the marks could be lent only by copying all sides, since no field of a struct with a ghost field is
// lent from behind two references.
#[derive(Drop)]
pub struct Kept {
    kept: bool,
    sides: [u8; 64],
}

impl Kept {
    // No marks are kept.
    pub fn none() -> Kept
        ensures kept { result.kept ≡ false }
        ensures size { length result.sides ≡ 64 }
    {
        Kept {
            kept: false,
            sides: [0; 64],
        }
    }

    pub fn is_kept(&self) -> bool
        ensures { result ≡ self.now.kept }
    {
        self.kept
    }

    // Decides whether kept marks outlive an edit.
    pub fn settle(&mut self, edit: Edit)
        requires { Within edit }
        ensures kept { self.new.kept ≡ (self.old.kept && outlives self.old.sides edit) }
        ensures sides { self.new.sides ≡ self.old.sides }
    {
        self.kept = match (self.kept, edit) {
            (false, _) => false,
            (true, Edit::Recode) => true,
            (true, Edit::Link { first, second }) if self.sides[first] == self.sides[second] => true,
            (true, Edit::Out(link)) if !link.in_service || !self.is_one_side(link) => true,
            (true, Edit::In(link)) if link.in_service || self.is_one_side(link) => true,
            (true, Edit::Reweigh(link, _)) if !link.in_service => true,
            (true, Edit::Reweigh(_, Change::Equal)) => true,
            (true, Edit::Reweigh(link, Change::Heavier)) if self.is_one_side(link) => true,
            (true, Edit::Reweigh(link, Change::Lighter)) if !self.is_one_side(link) => true,
            _ => false,
        };
    }

    // Whether both units of a link are on one side.
    fn is_one_side(&self, link: Ends) -> bool
        requires { (link.first < 64) × (link.second < 64) }
        ensures { result ≡ is_one_side self.now.sides link.first link.second }
    {
        self.sides[link.first] == self.sides[link.second]
    }

    // Keeps the marks of units, one for each.
    pub fn keep(&mut self, marks: &[u8])
        requires { length marks.now ≤ 64 }
        ensures kept { self.new.kept ≡ true }
        ensures sides { take (length marks.now) self.new.sides ≡ marks.now }
        ensures size { length self.new.sides ≡ 64 }
    {
        let units = marks.len();
        self.sides[..units].copy_from_slice(marks);
        self.kept = true;
    }

    // Writes the kept marks of as many units as there is room for.
    pub fn write(&self, marks: &mut [u8])
        requires { length marks.old ≤ 64 }
        ensures { marks.new ≡ take (length marks.old) self.now.sides }
    {
        let units = marks.len();
        marks.copy_from_slice(&self.sides[..units]);
    }
}
