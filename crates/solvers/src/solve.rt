// Works out a plan's weakest division over lent memory.
ghost use Rattle.std.specs.Prelude.{◌≡◌, ℕ, ◌*◌, ◌<◌, ◌≤◌, false, List, [], length, take};
ghost use Rattle.cuts.specs.Kinds.{kind_of};
ghost use Rattle.cuts.specs.Links.{Link as Joint, Sound as Light};
ghost use Rattle.cuts.specs.Outcomes.{Outcome};
ghost use Rattle.contractions.specs.Progress.{Room};
ghost use Rattle.plans.specs.Model.{model_of};
ghost use Rattle.solvers.specs.Answers.{LeftBehind, QueueLeft, WorkedOut};
ghost use Rattle.tables.specs.Meaning.{Holds};

use crate::answer::Answer;
use contractions::contraction::contract;
use cuts::entry::Entry;
use fills::fill::{copy_marks, fill};
use plans::plan::{LINKS, Plan};
use queues::queue::PriorityQueue;
use tables::table::Table;
use weights::weight::Weight;

// Works out the figure from a filled table, and leaves the table as nothing.
// Queue, table, marks and entries are lent each by itself, as for `weakest`.
pub fn work_out<W: Weight, Q: PriorityQueue<Weight = W>>(
    queue: &mut Q,
    table: &mut [W],
    n: usize,
    marks: &mut [u8],
    entries: &mut [Entry],
) -> Answer<W>
    requires queue { Q.PriorityQueue.sound queue.old }
    requires some { 2 ≤ n }
    requires room { Room n table.old marks.old entries.old }
    ensures sound { Q.PriorityQueue.sound queue.new }
    ensures new { result.kept ≡ false }
    ensures outcome { (ls : List (Joint W.Weight.Value)) → Light (kind_of W.Weight) n ls → Holds W.Weight n ls [] table.old → Outcome (kind_of W.Weight) n ls (W.Weight.value result.figure) marks.new (take result.mergers entries.new) result.scans }
    ensures mergers { result.mergers ≤ n }
    ensures memory { LeftBehind W.Weight n result.mergers table.old table.new marks.old marks.new entries.old entries.new }
    ensures queue { QueueLeft Q.PriorityQueue.key result.scans queue.old queue.new }
{
    let progress = contract(queue, table, n, marks, entries);
    Table::over(table, n).clear();
    Answer {
        figure: progress.best,
        mergers: progress.mergers,
        scans: progress.scans,
        kept: false,
    }
}

// The weakest division of a plan of two units or more.
// Queue, marks, entries and table are lent each by itself, as for `weakest`.
pub fn solve<W: Weight, Q: PriorityQueue<Weight = W>>(
    plan: &Plan<W>,
    queue: &mut Q,
    marks: &mut [u8],
    entries: &mut [Entry],
    table: &mut [W],
) -> Answer<W>
    requires queue { Q.PriorityQueue.sound queue.old }
    requires some { 2 ≤ length (model_of plan.now).codes }
    requires room { Room (length (model_of plan.now).codes) table.old marks.old entries.old }
    ensures sound { Q.PriorityQueue.sound queue.new }
    ensures answer { WorkedOut W.Weight (model_of plan.now) result marks.new entries.new }
    ensures memory { LeftBehind W.Weight (length (model_of plan.now).codes) result.mergers table.old table.new marks.old marks.new entries.old entries.new }
    ensures queue { QueueLeft Q.PriorityQueue.key result.scans queue.old queue.new }
{
    let n = plan.unit_count();
    let links = plan.links();
    // No heap: a mark for as many links as there can be. The marks lie beside the links, as one `fill` serves an answer and a
    // trial, in which one mark is put out and back.
    let mut in_service = [0; LINKS];
    copy_marks(links, &mut in_service);
    fill(&mut Table::over(table, n), links, &in_service);
    work_out(queue, table, n, marks, entries)
}
