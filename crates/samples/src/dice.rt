// Numbers that look random, the same in every run.
ghost use Rattle.std.specs.Prelude.{◌≡◌, ℕ, ◌<◌, ◌≤◌, ◌↔◌, IsTrue};
ghost use Rattle.samples.specs.Numbers.{following, reduced};

// Where the sequence of numbers stands.
#[derive(Drop)]
pub struct Dice {
    state: u64,
}

impl Dice {
    pub fn new(seed: u64) -> Dice
        ensures { result.state ≡ seed }
    {
        Dice { state: seed }
    }

    // A number from 0 up to, and without, a bound; 0 where the bound is 0.
    pub fn below(&mut self, bound: usize) -> usize
        ensures state { self.new.state ≡ following self.old.state }
        ensures number { 0 < bound → result ≡ reduced self.new.state bound }
        ensures less { 0 < bound → result < bound }
        ensures within { result ≤ bound }
    {
        self.state = self
            .state
            .wrapping_mul(6364136223846793005)
            .wrapping_add(1442695040888963407);
        if bound == 0 {
            return 0;
        }
        (self.state >> 33) as usize % bound
    }

    // Whether a number below so many is 0, as it is once in so many cases, and always in none.
    pub fn one_in(&mut self, cases: usize) -> bool
        ensures state { self.new.state ≡ following self.old.state }
        ensures test { 0 < cases → (IsTrue result ↔ (reduced self.new.state cases ≡ 0)) }
        ensures always { cases ≡ 0 → IsTrue result }
    {
        self.below(cases) == 0
    }
}
