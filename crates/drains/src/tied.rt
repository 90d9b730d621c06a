// A queue for tests, which is told which of several equally heavy entries to take.
ghost use Rattle.std.specs.Prelude.{◌≡◌, length};
ghost use Rattle.queues.specs.Keys.{Empty, no_heavier};
ghost use Rattle.queues.specs.Slots.{Within, Reached};
ghost use Rattle.drains.specs.Ties.{keyed, keyed_within, Picked, prefers};

use queues::queue::{GROUPS, PriorityQueue};
use refusals::Refusal;
use weights::weight::Weight;

// Which group comes first among equally heavy ones.
#[derive(Clone, Copy)]
pub enum Tie {
    Lowest,
    Highest,
}

// A key for each group that waits.
#[derive(Drop)]
pub struct TiedQueue<W> {
    // a place for each group: a map or a Vec would allocate, and neither new nor put can say that there is no memory
    keys: [Option<W>; GROUPS],
    tie: Tie,
    pub ghost size: { length keys ≡ 64 },
}

impl<W: Weight> TiedQueue<W> {
    // An empty queue.
    pub fn new(tie: Tie) -> TiedQueue<W>
        ensures empty { Empty (keyed result.keys) }
        ensures tie { result.tie ≡ tie }
    {
        TiedQueue {
            keys: no_keys(),
            tie,
        }
    }

    // The key of a group, where it waits.
    fn key_of(&self, group: usize) -> Option<W>
        ensures key { result ≡ keyed self.now.keys group }
        ensures within { Within result group }
    {
        self.keys.get(group).copied().flatten()
    }

    // A heaviest entry: of equally heavy ones that of the group that comes first. Beside `heaviest` of the list, since
    // the list is not told which of them to take.
    fn pick(&self) -> Option<(usize, W)>
        ensures within { Reached result 64 }
        ensures picked { Picked (no_heavier W.Weight) self.now.tie (keyed self.now.keys) result }
    {
        let mut best: Option<(usize, W)> = None;
        for (group, key) in self.keys.iter().enumerate() {
            // nested, as in the list's search for the heaviest
            if let Some(key) = *key {
                if preferred(self.tie, key, best) {
                    best = Some((group, key));
                }
            }
        }
        best
    }
}

impl<W: Weight> PriorityQueue for TiedQueue<W> {
    type Weight = W;

    // what every call could ask for is the field `size`
    ghost sound = { λ _. Unit {0} };

    ghost key = { λ q. keyed q.keys };

    // all its memory is its own
    ghost spares = { λ _ _. Unit {0} };

    ghost within = { λ q _ g h. keyed_within q.keys q.size g h };

    fn clear(&mut self) {
        self.keys = no_keys();
    }

    fn put(&mut self, group: usize, weight: W) -> Result<(), Refusal> {
        if group >= GROUPS {
            return Err(Refusal::NoSuchUnit);
        }
        if self.key_of(group).is_some() {
            return Err(Refusal::AlreadyWaiting);
        }
        self.keys[group] = Some(weight);
        Ok(())
    }

    fn raise(&mut self, group: usize, by: W) -> Result<W, Refusal> {
        let old = self.key_of(group).ok_or(Refusal::NotWaiting)?;
        let key = old.sum(by)?;
        self.keys[group] = Some(key);
        Ok(key)
    }

    fn take(&mut self) -> Option<(usize, W)> {
        let (group, key) = self.pick()?;
        self.keys[group] = None;
        Some((group, key))
    }
}

// No key for any group.
fn no_keys<W: Weight>() -> [Option<W>; GROUPS]
    ensures size { length result ≡ 64 }
    ensures empty { Empty (keyed result) }
{
    [None; GROUPS]
}

// Whether the key of a higher group is taken before the best of the lower ones, which `heavier` of the list answers for
// one choice alone.
fn preferred<W: Weight>(tie: Tie, key: W, best: Option<(usize, W)>) -> bool
    ensures { result ≡ prefers (no_heavier W.Weight) tie best key }
{
    best.is_none_or(|(_, top)| match tie {
        Tie::Lowest => !key.at_most(top),
        Tie::Highest => top.at_most(key),
    })
}
