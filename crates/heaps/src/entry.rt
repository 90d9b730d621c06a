// One entry of a heap, and which of two comes first.
ghost use Rattle.std.specs.Prelude.{◌≡◌};
ghost use Rattle.heaps.specs.Entries.{before as ahead};
ghost use Rattle.queues.specs.Keys.{no_heavier};

use weights::weight::Weight;

// A group with its key.
#[derive(Clone, Copy)]
pub struct HeapEntry<W> {
    pub(crate) group: usize,
    pub(crate) key: W,
}

impl<W: Weight> HeapEntry<W> {
    // An entry to make memory of; a queue does not look at what its memory held before.
    pub fn blank() -> HeapEntry<W>
        ensures { (result.group ≡ 0) × (W.Weight.value result.key ≡ W.Weight.zero) }
    {
        HeapEntry {
            group: 0,
            key: W::nothing(),
        }
    }
}

// Whether an entry has to come before another: the heavier one first, and of equally heavy ones that
// of the lower group.
pub(crate) fn before<W: Weight>(a: HeapEntry<W>, b: HeapEntry<W>) -> bool
    ensures { result ≡ ahead (no_heavier W.Weight) a b }
{
    !a.key.at_most(b.key) || (b.key.at_most(a.key) && a.group < b.group)
}
