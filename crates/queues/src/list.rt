// The list: a queue that looks through all its entries.
ghost use Rattle.std.specs.Prelude.{◌≡◌, ℕ, ◌<◌, ◌≤◌, length, Some, None};
ghost use Rattle.queues.specs.Keys.{Empty, Unchanged, Becomes, no_heavier};
ghost use Rattle.queues.specs.Memory.{Enough, Unsettled};
ghost use Rattle.queues.specs.Slots.{held, waiting, waiting_within, Fits, Within, Reached, Best, beats};

use crate::queue::{GROUPS, PriorityQueue};
use refusals::Refusal;
use refusals::memory::enough;
use weights::weight::Weight;

// The place of one group: its key, while the group waits.
#[derive(Clone, Copy)]
pub struct Slot<W> {
    key: Option<W>,
}

impl<W: Weight> Slot<W> {
    // A slot that holds no entry.
    pub fn empty() -> Slot<W>
        ensures { held result ≡ None }
    {
        Slot { key: None }
    }
}

// A queue over lent slots, one for each group. No group from `reach` on waits, whatever its slot
// holds: what the slots from there on hold is unsettled, and slots past the last group are never touched.
// No heap: the slots are lent, and how far they count stands beside them.
#[derive(Drop)]
pub struct ListQueue<'a, W> {
    slots: &'a mut [Slot<W>],
    reach: usize,
}

impl<'a, W: Weight> ListQueue<'a, W> {
    // Whether memory is enough for a queue: 17 under 64 slots.
    pub fn check(slots: &[Slot<W>]) -> Result<(), Refusal>
        ensures { Enough result (length slots.now) }
    {
        enough(slots, GROUPS)
    }

    // An empty queue over the lent slots, whatever they hold.
    pub fn over(slots: &'a mut [Slot<W>]) -> ListQueue<'a, W>
        requires { 64 ≤ length slots.old }
        ensures sound { Fits (length result.slots.now) result.reach }
        ensures empty { Empty (waiting result.slots.now result.reach) }
        ensures memory { result.slots.now ≡ slots.old }
    {
        ListQueue { slots, reach: 0 }
    }

    // The key of a group, where it waits.
    fn key_of(&self, group: usize) -> Option<W>
        requires { Fits (length self.now.slots.now) self.now.reach }
        ensures key { result ≡ waiting self.now.slots.now self.now.reach group }
        ensures within { Within result group }
    {
        let slot = self.slots[..self.reach].get(group)?;
        slot.key
    }

    // The heaviest entry; of equally heavy ones that of the lowest group.
    fn heaviest(&self) -> Option<(usize, W)>
        requires { Fits (length self.now.slots.now) self.now.reach }
        ensures within { Reached result self.now.reach }
        ensures best { Best (no_heavier W.Weight) (waiting self.now.slots.now self.now.reach) result }
    {
        let mut best: Option<(usize, W)> = None;
        for (group, slot) in self.slots[..self.reach].iter().enumerate() {
            // nested, since of `if let` with `&&` nothing is known where the slot is empty
            if let Some(key) = slot.key {
                if heavier(key, best) {
                    best = Some((group, key));
                }
            }
        }
        best
    }

    // Gives a group a key, whether it waited or not.
    fn set_key(&mut self, group: usize, key: W)
        requires sound { Fits (length self.old.slots.now) self.old.reach }
        requires within { group < 64 }
        ensures sound { Fits (length self.new.slots.now) self.new.reach }
        ensures key { Becomes (waiting self.old.slots.now self.old.reach) (waiting self.new.slots.now self.new.reach) group (Some key) }
        ensures memory { Unsettled 64 self.old.slots.now self.new.slots.now }
    {
        self.reach_past(group);
        self.slots[group] = Slot { key: Some(key) };
    }

    // Removes the entry of a group.
    fn remove(&mut self, group: usize)
        requires sound { Fits (length self.old.slots.now) self.old.reach }
        requires reached { group < self.old.reach }
        ensures sound { Fits (length self.new.slots.now) self.new.reach }
        ensures key { Becomes (waiting self.old.slots.now self.old.reach) (waiting self.new.slots.now self.new.reach) group None }
        ensures memory { Unsettled 64 self.old.slots.now self.new.slots.now }
    {
        self.slots[group].key = None;
    }

    // Makes the slot of a group count; the entries stay as they are.
    fn reach_past(&mut self, group: usize)
        requires sound { Fits (length self.old.slots.now) self.old.reach }
        requires within { group < 64 }
        ensures sound { Fits (length self.new.slots.now) self.new.reach }
        ensures reached { group < self.new.reach }
        ensures same { Unchanged (waiting self.old.slots.now self.old.reach) (waiting self.new.slots.now self.new.reach) }
        ensures memory { Unsettled 64 self.old.slots.now self.new.slots.now }
    {
        if group >= self.reach {
            self.slots[self.reach..=group].fill(Slot::empty());
            self.reach = group + 1;
        }
    }
}

impl<'a, W: Weight> PriorityQueue for ListQueue<'a, W> {
    type Weight = W;

    ghost sound = { λ q. Fits (length q.slots.now) q.reach };

    ghost key = { λ q. waiting q.slots.now q.reach };

    ghost spares = { λ p q. Unsettled 64 p.slots.now q.slots.now };

    ghost within = { λ q s g h. waiting_within q.slots.now q.reach g s.0 h };

    fn clear(&mut self) {
        self.reach = 0;
    }

    fn put(&mut self, group: usize, weight: W) -> Result<(), Refusal> {
        if group >= GROUPS {
            return Err(Refusal::NoSuchUnit);
        }
        if self.key_of(group).is_some() {
            return Err(Refusal::AlreadyWaiting);
        }
        self.set_key(group, weight);
        Ok(())
    }

    fn raise(&mut self, group: usize, by: W) -> Result<W, Refusal> {
        let old = self.key_of(group).ok_or(Refusal::NotWaiting)?;
        let key = old.sum(by)?;
        self.set_key(group, key);
        Ok(key)
    }

    fn take(&mut self) -> Option<(usize, W)> {
        let (group, key) = self.heaviest()?;
        self.remove(group);
        Some((group, key))
    }
}

// Whether a key is heavier than the best one so far.
fn heavier<W: Weight>(key: W, best: Option<(usize, W)>) -> bool
    ensures { result ≡ beats (no_heavier W.Weight) best key }
{
    best.is_none_or(|(_, top)| !key.at_most(top))
}
