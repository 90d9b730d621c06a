// Draining a queue: every entry is taken, heaviest first.
ghost use Rattle.std.specs.Prelude.{◌≡◌, ℕ, ◌≤◌, length, take, drop};
ghost use Rattle.queues.specs.Keys.{Empty, no_heavier};
ghost use Rattle.drains.specs.Outcome.{Drained};

use queues::queue::PriorityQueue;
use weights::weight::Weight;

// Takes every entry of a queue into `out`, in the order taken, and answers how many there were.
// Every entry comes out exactly once, keys never rise, and what `out` holds past them stays.
pub fn drain<W: Weight, Q: PriorityQueue<Weight = W>>(
    queue: &mut Q,
    out: &mut [(usize, W)],
) -> usize
    requires sound { Q.PriorityQueue.sound queue.old }
    requires room { 64 ≤ length out.old }
    ensures sound { Q.PriorityQueue.sound queue.new }
    ensures emptied { Empty (Q.PriorityQueue.key queue.new) }
    ensures few { result ≤ 64 }
    ensures drained { Drained (no_heavier W.Weight) (Q.PriorityQueue.key queue.old) (take result out.new) }
    ensures rest { drop result out.new ≡ drop result out.old }
{
    // counted by hand: the queue and not `out` says when it ends
    let mut count = 0;
    while let Some(entry) = queue.take() {
        out[count] = entry;
        count += 1;
    }
    count
}
