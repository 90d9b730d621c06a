// Every queue is filled and refused alike, and differs only in what it takes among equals.
use crate::drain::drain;
use crate::tied::{Tie, TiedQueue};
use heaps::entry::HeapEntry;
use heaps::heap::HeapQueue;
use queues::list::{ListQueue, Slot};
use queues::queue::PriorityQueue;
use refusals::Refusal;
use std::process::Abort;
use std::test::Fail;
use weights::plain::Plain;
use weights::weight::Weight;

// What `fill` puts, and raises by. Then three and two groups are equally heavy.
const PUT: [(usize, u32); 6] = [(20, 1), (3, 4), (50, 4), (8, 1), (63, 0), (0, 2)];

const RAISED: [(usize, u32); 2] = [(8, 3), (63, 2)];

// What comes out where the lowest group is taken among equals, and the highest.
const LOWEST: [(usize, u32); 6] = [(3, 4), (8, 4), (50, 4), (0, 2), (63, 2), (20, 1)];

const HIGHEST: [(usize, u32); 6] = [(50, 4), (8, 4), (3, 4), (63, 2), (0, 2), (20, 1)];

fn plain(conductors: u32) -> Result<Plain, Refusal> {
    Plain::from_parts(&[conductors])
}

// The number of a refusal, since the tests state refusals by the rules' numbers.
fn refused<T: Drop>(reply: Result<T, Refusal>) -> Option<u8> {
    reply.err().map(u8::from)
}

fn fill<Q: PriorityQueue<Weight = Plain>>(queue: &mut Q) -> Result<(), Fail>
    requires { Q.PriorityQueue.sound queue.old }
    ensures { Q.PriorityQueue.sound queue.new }
{
    for (group, key) in PUT {
        queue.put(group, plain(key)?)?;
    }
    for (group, by) in RAISED {
        let _ = queue.raise(group, plain(by)?)?;
    }
    Ok(())
}

// Every refusal, on a queue that is filled.
fn refuse<Q: PriorityQueue<Weight = Plain>>(rt: &impl Abort, queue: &mut Q) -> Result<(), Fail>
    requires { Q.PriorityQueue.sound queue.old }
    ensures { Q.PriorityQueue.sound queue.new }
{
    let nine = plain(9)?;
    let most = plain(2_000_000)?;
    assert_eq!(rt; refused(queue.put(64, nine)), Some(9));
    assert_eq!(rt; refused(queue.put(3, nine)), Some(18));
    assert_eq!(rt; refused(queue.raise(1, nine)), Some(19));
    assert_eq!(rt; refused(queue.raise(64, nine)), Some(19));
    assert_eq!(rt; refused(queue.raise(3, most)), Some(12));
    Ok(())
}

// Drains a queue and compares what comes out.
fn compare<Q: PriorityQueue<Weight = Plain>>(
    rt: &impl Abort,
    queue: &mut Q,
    expected: &[(usize, u32)],
)
    requires { Q.PriorityQueue.sound queue.old }
    ensures { Q.PriorityQueue.sound queue.new }
{
    let mut out = [(0, Plain::nothing()); 64];
    let count = drain(queue, &mut out);
    assert_eq!(rt; count, expected.len());
    for (i, (entry, wanted)) in out[..count].iter().zip(expected).enumerate() {
        let (group, key) = *entry;
        assert_eq!(rt; (group, key.amount()), *wanted, "{}", i);
    }
}

// A refusal changes no entry; a drained queue is empty; a cleared one too.
fn try_out<Q: PriorityQueue<Weight = Plain>>(
    rt: &impl Abort,
    queue: &mut Q,
    expected: &[(usize, u32)],
) -> Result<(), Fail>
    requires { Q.PriorityQueue.sound queue.old }
{
    fill(queue)?;
    refuse(rt, queue)?;
    compare(rt, queue, expected);
    compare(rt, queue, &[]);
    fill(queue)?;
    queue.clear();
    compare(rt, queue, &[]);
    Ok(())
}

#[test]
fn list(rt: HostRuntime) -> Result<(), Fail> {
    let mut slots: [Slot<Plain>; 64] = [Slot::empty(); 64];
    try_out(&rt, &mut ListQueue::over(&mut slots), &LOWEST)
}

#[test]
fn heap(rt: HostRuntime) -> Result<(), Fail> {
    let mut entries: [HeapEntry<Plain>; 64] = [HeapEntry::blank(); 64];
    try_out(&rt, &mut HeapQueue::over(&mut entries), &LOWEST)
}

#[test]
fn lowest_first(rt: HostRuntime) -> Result<(), Fail> {
    try_out(&rt, &mut TiedQueue::new(Tie::Lowest), &LOWEST)
}

#[test]
fn highest_first(rt: HostRuntime) -> Result<(), Fail> {
    try_out(&rt, &mut TiedQueue::new(Tie::Highest), &HIGHEST)
}
