// What a priority queue is.
ghost use Rattle.std.specs.Prelude.{◌≡◌, ◌≤◌, ℕ, None, Option};
ghost use Rattle.queues.specs.Keys.{Empty, Put, Raised, Taken, no_heavier};

use refusals::Refusal;
use weights::weight::Weight;

// Groups are numbered from 0 up to, and without, this.
pub const GROUPS: usize = 64;

// A set of entries, each a group number from 0 to 63 and a key, which is a weight; no group has two
// entries. Which of several equally heavy entries `take` removes is left open. Each queue writes `put` and
// `raise` itself: from shared ones the heap would look up a group's place twice.
pub trait PriorityQueue {
    type Weight: Weight;

    // what making a queue gives, and every call asks for and gives back
    ghost sound: { Self → Type 0 };

    // the entries: the key of each group that waits
    ghost key: { Self → ℕ → Option Self.Weight };

    // what a call leaves of the memory as it was; the rest, but for the entries, is unsettled
    ghost spares: { Self → Self → Type 0 };

    // Removes every entry.
    fn clear(&mut self)
        requires { sound self.old }
        ensures sound { sound self.new }
        ensures cleared { Empty (key self.new) }
        ensures memory { spares self.old self.new };

    // Adds a group with its key: 9 above 63, then 18 if it waits already.
    fn put(&mut self, group: usize, weight: Self::Weight) -> Result<(), Refusal>
        requires { sound self.old }
        ensures sound { sound self.new }
        ensures put { Put (key self.old) (key self.new) group weight result }
        ensures memory { spares self.old self.new };

    // Adds to a waiting group's key and answers the new key: 19 if it does not wait, then 12.
    fn raise(&mut self, group: usize, by: Self::Weight) -> Result<Self::Weight, Refusal>
        requires { sound self.old }
        ensures sound { sound self.new }
        ensures raised { Raised Self.Weight.Weight.value Self.Weight.Weight.plus Self.Weight.Weight.size (key self.old) (key self.new) group by result }
        ensures memory { spares self.old self.new };

    // Removes a heaviest entry and answers its group and key; none from an empty queue.
    fn take(&mut self) -> Option<(usize, Self::Weight)>
        requires { sound self.old }
        ensures sound { sound self.new }
        ensures taken { Taken (no_heavier Self.Weight.Weight) (key self.old) (key self.new) result }
        ensures memory { spares self.old self.new };

    // only a group from 0 to 63 has a key
    ghost within: { (q : Self) → sound q → (g : ℕ) → 64 ≤ g → key q g ≡ None };
}
