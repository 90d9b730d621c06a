// The heap: a queue that keeps its entries in the order of a binary heap.
ghost use Rattle.std.specs.Prelude.{◌≡◌, ℕ, ◌<◌, ◌≤◌, true, length, if◌then◌else◌, Some, None, nat_eq};
ghost use Rattle.queues.specs.Keys.{Empty, Unchanged, Becomes, no_heavier};
ghost use Rattle.queues.specs.Memory.{Enough, Unsettled};
ghost use Rattle.heaps.specs.Tree.{Rising, Sinking, Swapped, Eldest};
ghost use Rattle.heaps.specs.Entries.{before as ahead};
ghost use Rattle.heaps.specs.Heaped.{placed, standing, heap_key, key_within, Kept, Heaped, Finds, Top};

use crate::entry::{HeapEntry, before};
use queues::queue::{GROUPS, PriorityQueue};
use refusals::Refusal;
use refusals::memory::enough;
use weights::weight::Weight;

// A queue over lent entries, of which the first `count` wait, in the order of a binary heap. `places`
// says at which place the entry of a waiting group stands; a group waits if the entry there is its own.
// What the other places hold is unsettled, and places past the 64th are never touched. No heap: the entries are
// lent, and their number stands beside them; std's heap owns its memory and cannot raise an entry. The places of
// all groups lie in fixed memory. Its condition has a name, as each queue's.
#[derive(Drop)]
pub struct HeapQueue<'a, W> {
    entries: &'a mut [HeapEntry<W>],
    count: usize,
    places: [usize; GROUPS],
}

impl<'a, W: Weight> HeapQueue<'a, W> {
    // Whether memory is enough for a queue: 17 under 64 entries.
    pub fn check(entries: &[HeapEntry<W>]) -> Result<(), Refusal>
        ensures { Enough result (length entries.now) }
    {
        enough(entries, GROUPS)
    }

    // An empty queue over the lent entries, whatever they hold.
    pub fn over(entries: &'a mut [HeapEntry<W>]) -> HeapQueue<'a, W>
        requires { 64 ≤ length entries.old }
        ensures sound { Heaped (no_heavier W.Weight) result }
        ensures empty { Empty (heap_key result) }
        ensures memory { result.entries.now ≡ entries.old }
    {
        HeapQueue {
            entries,
            count: 0,
            places: [0; GROUPS],
        }
    }

    // The entry at a place.
    fn entry(&self, at: usize) -> HeapEntry<W>
        requires { at < length self.now.entries.now }
        ensures { standing self.now at ≡ Some result }
    {
        self.entries[at]
    }

    // The place of a group's entry, where the group waits.
    fn find(&self, group: usize) -> Option<usize>
        requires { Kept self.now }
        ensures { Finds self.now group result }
    {
        let at = *self.places.get(group)?;
        (at < self.count && self.entry(at).group == group).then_some(at)
    }

    // Whether the entry at one place has to come before that at another.
    fn is_before(&self, a: usize, b: usize) -> bool
        requires { (a < length self.now.entries.now) × (b < length self.now.entries.now) }
        ensures { (x y : HeapEntry W) → standing self.now a ≡ Some x → standing self.now b ≡ Some y → result ≡ ahead (no_heavier W.Weight) x y }
    {
        before(self.entry(a), self.entry(b))
    }

    // Writes an entry to a place, and the place to the table.
    fn write(&mut self, at: usize, entry: HeapEntry<W>)
        requires room { at < length self.old.entries.now }
        requires table { length self.old.places ≡ 64 }
        requires group { entry.group < 64 }
        ensures length { length self.new.entries.now ≡ length self.old.entries.now }
        ensures table { length self.new.places ≡ 64 }
        ensures count { self.new.count ≡ self.old.count }
        ensures entry { Becomes (standing self.old) (standing self.new) at (Some entry) }
        ensures place { (g : ℕ) → placed self.new.places g ≡ (if nat_eq g entry.group then at else placed self.old.places g) }
        ensures memory { at < 64 → Unsettled 64 self.old.entries.now self.new.entries.now }
    {
        self.places[entry.group] = at;
        self.entries[at] = entry;
    }

    // Lets two entries change places.
    fn swap(&mut self, i: usize, j: usize)
        requires kept { Kept self.old }
        requires within { (i < self.old.count) × (j < self.old.count) }
        ensures kept { Kept self.new }
        ensures count { self.new.count ≡ self.old.count }
        ensures swapped { Swapped (standing self.old) (standing self.new) i j }
        ensures keys { Unchanged (heap_key self.old) (heap_key self.new) }
        ensures memory { Unsettled 64 self.old.entries.now self.new.entries.now }
    {
        let a = self.entry(i);
        let b = self.entry(j);
        self.write(i, b);
        self.write(j, a);
    }

    // The entry that comes first: a heaviest one, and of these that of the lowest group.
    fn top(&self) -> Option<HeapEntry<W>>
        requires { Heaped (no_heavier W.Weight) self.now }
        ensures { Top (no_heavier W.Weight) self.now result }
    {
        self.entries[..self.count].first().copied()
    }

    // Adds the entry of a group that does not wait.
    fn push(&mut self, entry: HeapEntry<W>)
        requires sound { Heaped (no_heavier W.Weight) self.old }
        requires group { entry.group < 64 }
        requires free { heap_key self.old entry.group ≡ None }
        ensures sound { Heaped (no_heavier W.Weight) self.new }
        ensures keys { Becomes (heap_key self.old) (heap_key self.new) entry.group (Some entry.key) }
        ensures memory { Unsettled 64 self.old.entries.now self.new.entries.now }
    {
        let at = self.count;
        self.write(at, entry);
        self.count = at + 1;
        self.sift_up(at);
    }

    // Gives the entry at a place a key that is no lighter.
    fn replace(&mut self, at: usize, entry: HeapEntry<W>)
        requires sound { Heaped (no_heavier W.Weight) self.old }
        requires within { at < self.old.count }
        requires heavier { (e : HeapEntry W) → standing self.old at ≡ Some e → (entry.group ≡ e.group) × (W.Weight.le (W.Weight.value e.key) (W.Weight.value entry.key) ≡ true) }
        ensures sound { Heaped (no_heavier W.Weight) self.new }
        ensures keys { Becomes (heap_key self.old) (heap_key self.new) entry.group (Some entry.key) }
        ensures memory { Unsettled 64 self.old.entries.now self.new.entries.now }
    {
        self.write(at, entry);
        self.sift_up(at);
    }

    // Removes the entry that comes first.
    fn pop(&mut self)
        requires sound { Heaped (no_heavier W.Weight) self.old }
        requires some { 0 < self.old.count }
        ensures sound { Heaped (no_heavier W.Weight) self.new }
        ensures keys { (e : HeapEntry W) → standing self.old 0 ≡ Some e → Becomes (heap_key self.old) (heap_key self.new) e.group None }
        ensures memory { Unsettled 64 self.old.entries.now self.new.entries.now }
    {
        let last = self.count - 1;
        self.swap(0, last);
        self.count = last;
        self.sift_down(0);
    }

    // Moves the entry at a place up to where it belongs.
    fn sift_up(&mut self, start: usize)
        requires kept { Kept self.old }
        requires within { start < self.old.count }
        requires rising { Rising (ahead (no_heavier W.Weight)) (standing self.old) self.old.count start }
        ensures sound { Heaped (no_heavier W.Weight) self.new }
        ensures keys { Unchanged (heap_key self.old) (heap_key self.new) }
        ensures memory { Unsettled 64 self.old.entries.now self.new.entries.now }
    {
        let mut i = start;
        while i > 0 {
            let parent = (i - 1) / 2;
            if !self.is_before(i, parent) {
                break;
            }
            self.swap(i, parent);
            i = parent;
        }
    }

    // Moves the entry at a place down to where it belongs.
    fn sift_down(&mut self, start: usize)
        requires kept { Kept self.old }
        requires within { start ≤ 64 }
        requires sinking { Sinking (ahead (no_heavier W.Weight)) (standing self.old) self.old.count start }
        ensures sound { Heaped (no_heavier W.Weight) self.new }
        ensures keys { Unchanged (heap_key self.old) (heap_key self.new) }
        ensures memory { Unsettled 64 self.old.entries.now self.new.entries.now }
    {
        let mut i = start;
        while let Some(child) = self.first_child(i) {
            if !self.is_before(child, i) {
                break;
            }
            self.swap(i, child);
            i = child;
        }
    }

    // The child of a place before which no other child has to come, where it has one.
    fn first_child(&self, i: usize) -> Option<usize>
        requires kept { Kept self.now }
        requires within { i ≤ 64 }
        ensures { Eldest (ahead (no_heavier W.Weight)) (standing self.now) self.now.count i result }
    {
        let left = 2 * i + 1;
        if left >= self.count {
            return None;
        }
        let right = left + 1;
        if right < self.count && self.is_before(right, left) {
            return Some(right);
        }
        Some(left)
    }
}

impl<'a, W: Weight> PriorityQueue for HeapQueue<'a, W> {
    type Weight = W;

    ghost sound = { Heaped (no_heavier W.Weight) };

    ghost key = { heap_key };

    ghost spares = { λ p q. Unsettled 64 p.entries.now q.entries.now };

    ghost within = { λ q s g h. key_within q g s.kept h };

    fn clear(&mut self) {
        self.count = 0;
    }

    fn put(&mut self, group: usize, weight: W) -> Result<(), Refusal> {
        if group >= GROUPS {
            return Err(Refusal::NoSuchUnit);
        }
        if self.find(group).is_some() {
            return Err(Refusal::AlreadyWaiting);
        }
        self.push(HeapEntry { group, key: weight });
        Ok(())
    }

    fn raise(&mut self, group: usize, by: W) -> Result<W, Refusal> {
        let at = self.find(group).ok_or(Refusal::NotWaiting)?;
        let old = self.entry(at);
        let key = old.key.sum(by)?;
        self.replace(at, HeapEntry { group, key });
        Ok(key)
    }

    fn take(&mut self) -> Option<(usize, W)> {
        let top = self.top()?;
        self.pop();
        Some((top.group, top.key))
    }
}
