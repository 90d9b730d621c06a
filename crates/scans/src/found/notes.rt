// Notes found pairs, and tells them again.
ghost use Rattle.std.specs.Prelude.{◌≡◌, ℕ, ◌+◌, ◌<◌, ◌≤◌, List, [], ◌∷◌, ◌++◌, length, slice_index_or, slice_set};
ghost use Rattle.scans.specs.Scanned.{Notes, pairs_of};

use crate::found::Found;
use tables::groups::Groups;

impl Found {
    // At first nothing is found.
    pub fn none(units: usize) -> Found
        requires { units ≤ 64 }
        ensures notes { Notes units [] result }
        ensures units { result.classes.units ≡ units }
        ensures count { result.count ≡ 0 }
    {
        Found {
            classes: Groups::single(units),
            count: 0,
            pairs: [(0, 0); 64],
        }
    }

    // How many pairs were noted.
    pub fn count(&self) -> usize
        ensures { result ≡ self.now.count }
    {
        self.count
    }

    // The pair at a place, in the order in which they were found.
    pub fn pair(&self, i: usize) -> (usize, usize)
        requires { i < self.now.count }
        ensures value { result ≡ slice_index_or self.now.pairs i (0, 0) }
        ensures within { (result.0 < self.now.classes.units) × (result.1 < self.now.classes.units) }
    {
        self.pairs[i]
    }

    // All pairs that were noted, in the order in which they were found.
    pub fn pairs(&self) -> &[(usize, usize)]
        ensures value { result.now ≡ pairs_of self.now }
        ensures len { length result.now ≡ self.now.count }
        ensures within { (k : ℕ) → k < length result.now → ((slice_index_or result.now k (0, 0)).0 < self.now.classes.units) × ((slice_index_or result.now k (0, 0)).1 < self.now.classes.units) }
    {
        &self.pairs[..self.count]
    }

    // Notes a pair, unless its groups are together already, as all are where one class is left.
    pub fn note(&mut self, a: usize, b: usize)
        requires a { a < self.old.classes.units }
        requires b { b < self.old.classes.units }
        ensures notes { (n : ℕ) (before : List (ℕ × ℕ)) → Notes n before self.old → Notes n (before ++ ((a, b) ∷ [])) self.new }
        ensures units { self.new.classes.units ≡ self.old.classes.units }
    {
        let of_a = self.classes.of(a);
        let of_b = self.classes.of(b);
        if of_a == of_b || self.classes.left() < 2 {
            return;
        }
        self.classes.join(of_a.min(of_b), of_a.max(of_b));
        self.push(a, b);
    }

    // Keeps a pair after those noted before.
    fn push(&mut self, a: usize, b: usize)
        requires a { a < self.old.classes.units }
        requires b { b < self.old.classes.units }
        requires room { self.old.count + self.old.classes.left < 64 }
        ensures classes { self.new.classes ≡ self.old.classes }
        ensures count { self.new.count ≡ self.old.count + 1 }
        ensures pairs { self.new.pairs ≡ slice_set self.old.pairs self.old.count (a, b) }
    {
        self.pairs[self.count] = (a, b);
        self.count += 1;
    }
}
