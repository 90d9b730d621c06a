// The weakest division of a filing's plan with one link out of service.
ghost use Rattle.std.specs.Prelude.{◌≡◌, ℕ, ◌<◌, ◌≤◌, false, length, IfOk, MatchResult, OnErr};
ghost use Rattle.answers.specs.Answered.{Judged, Least, memory, trial_verdict, Tried, Unchanged};
ghost use Rattle.contractions.specs.Progress.{Room};
ghost use Rattle.filings.specs.Filed.{Filed};
ghost use Rattle.plans.specs.Model.{marked, model_of};
ghost use Rattle.solvers.specs.Answers.{QueueLeft};

use crate::room::check_room;
use cuts::entry::Entry;
use filings::filing::Filing;
use fills::fill::copy_marks;
use fills::guard::fill_without;
use plans::plan::LINKS;
use queues::queue::PriorityQueue;
use refusals::Refusal;
use solvers::answer::Answer;
use solvers::solve::work_out;
use tables::table::Table;
use weights::weight::Weight;

// Works the answer out with one link out of service. The marks of the links are copied out, lent beside the links while the
// weight table is filled, and written back. Queue, marks, entries and table are lent each by itself, as for `weakest`.
fn solve_without<W: Weight, Q: PriorityQueue<Weight = W>>(
    filing: &mut Filing<W>,
    link: usize,
    queue: &mut Q,
    marks: &mut [u8],
    entries: &mut [Entry],
    table: &mut [W],
) -> Answer<W>
    requires link { link < length (model_of filing.old.plan).links }
    requires queue { Q.PriorityQueue.sound queue.old }
    requires room { Room (length (model_of filing.old.plan).codes) table.old marks.old entries.old }
    ensures filed { Filed W.Weight filing.old → Filed W.Weight filing.new }
    ensures sound { Q.PriorityQueue.sound queue.new }
    ensures tried { Tried W.Weight filing.old filing.new (memory marks.old entries.old table.old) (memory marks.new entries.new table.new) result link }
    ensures queue { QueueLeft Q.PriorityQueue.key result.scans queue.old queue.new }
{
    let plan = filing.plan();
    let n = plan.unit_count();
    let links = plan.links();
    // No heap: a mark for as many links as there can be, lent beside the links, where one of them is put out and back.
    let mut in_service = [0; LINKS];
    copy_marks(links, &mut in_service);
    fill_without(&mut Table::over(table, n), links, &mut in_service, link);
    filing.put_marks(&in_service);
    work_out(queue, table, n, marks, entries)
}

// The weakest division with one link out of service, never from kept marks and without touching them: 13, 17.
// Queue, marks, entries and table are lent each by itself, as for `weakest`.
pub fn trial<W: Weight, Q: PriorityQueue<Weight = W>>(
    filing: &mut Filing<W>,
    link: usize,
    queue: &mut Q,
    marks: &mut [u8],
    entries: &mut [Entry],
    table: &mut [W],
) -> Result<Answer<W>, Refusal>
    requires queue { Q.PriorityQueue.sound queue.old }
    ensures filed { Filed W.Weight filing.old → Filed W.Weight filing.new }
    ensures sound { Q.PriorityQueue.sound queue.new }
    ensures verdict { Judged (trial_verdict (model_of filing.old.plan) link (length marks.old) (length entries.old) (length table.old)) result }
    ensures tried { IfOk result (λ a. Tried W.Weight filing.old filing.new (memory marks.old entries.old table.old) (memory marks.new entries.new table.new) a link) }
    ensures least { IfOk result (λ a. Least W.Weight (marked link false (model_of filing.old.plan)) (W.Weight.value a.figure) marks.new) }
    ensures refused { OnErr result (Unchanged filing.old filing.new (memory marks.old entries.old table.old) (memory marks.new entries.new table.new)) }
    ensures queue { MatchResult result (λ a. QueueLeft Q.PriorityQueue.key a.scans queue.old queue.new) (λ _. queue.new ≡ queue.old) }
{
    let plan = filing.plan();
    let n = plan.unit_count();
    if link >= plan.link_count() {
        return Err(Refusal::NoSuchLink);
    }
    check_room(n, marks.len(), entries.len(), table.len())?;
    Ok(solve_without(filing, link, queue, marks, entries, table))
}
