// The weakest division of a filing's plan.
ghost use Rattle.std.specs.Prelude.{◌≡◌, ℕ, ◌≤◌, true, false, length, take, drop, IfOk, MatchResult, OnErr, OnOk};
ghost use Rattle.answers.specs.Answered.{FromKept, Judged, Least, memory, Unchanged, weakest_verdict, WorkedKept};
ghost use Rattle.cuts.specs.Divisions.{weight_of};
ghost use Rattle.cuts.specs.Kinds.{kind_of};
ghost use Rattle.filings.specs.Filed.{Current, Filed};
ghost use Rattle.plans.specs.Divided.{links_of, side_of};
ghost use Rattle.plans.specs.Model.{model_of};
ghost use Rattle.solvers.specs.Answers.{QueueLeft};

use crate::room::check_room;
use cuts::entry::Entry;
use filings::filing::Filing;
use queues::queue::PriorityQueue;
use refusals::Refusal;
use solvers::answer::Answer;
use solvers::solve::solve;
use weights::weight::Weight;

// Writes the kept marks, and answers them with their present weight.
fn answer_kept<W: Weight>(filing: &Filing<W>, marks: &mut [u8]) -> Answer<W>
    requires room { length (model_of filing.now.plan).codes ≤ length marks.old }
    ensures kept { result.kept ≡ true }
    ensures mergers { result.mergers ≡ 0 }
    ensures scans { result.scans ≡ 0 }
    ensures figure { W.Weight.value result.figure ≡ weight_of (kind_of W.Weight) (links_of W.Weight (model_of filing.now.plan)) (side_of filing.now.kept.sides) }
    ensures front { take (length (model_of filing.now.plan).codes) marks.new ≡ take (length (model_of filing.now.plan).codes) filing.now.kept.sides }
    ensures rest { drop (length (model_of filing.now.plan).codes) marks.new ≡ drop (length (model_of filing.now.plan).codes) marks.old }
{
    let plan = filing.plan();
    let n = plan.unit_count();
    filing.kept().write(&mut marks[..n]);
    Answer {
        figure: plan.cut(&marks[0..n]),
        mergers: 0,
        scans: 0,
        kept: true,
    }
}

// The weakest division: 15 below two units, then 17. Kept marks are answered as they are; else they are worked out and kept.
// Queue, marks, entries and table are lent each by itself, as the rules want: 17 speaks of the size of each.
pub fn weakest<W: Weight, Q: PriorityQueue<Weight = W>>(
    filing: &mut Filing<W>,
    queue: &mut Q,
    marks: &mut [u8],
    entries: &mut [Entry],
    table: &mut [W],
) -> Result<Answer<W>, Refusal>
    requires queue { Q.PriorityQueue.sound queue.old }
    ensures filed { Filed W.Weight filing.old → Filed W.Weight filing.new }
    ensures sound { Q.PriorityQueue.sound queue.new }
    ensures verdict { Judged (weakest_verdict (model_of filing.old.plan) (length marks.old) (length entries.old) (length table.old)) result }
    ensures kept { IfOk result (λ a. filing.old.kept.kept ≡ true → FromKept W.Weight filing.old filing.new (memory marks.old entries.old table.old) (memory marks.new entries.new table.new) a) }
    ensures worked { IfOk result (λ a. filing.old.kept.kept ≡ false → WorkedKept W.Weight filing.old filing.new (memory marks.old entries.old table.old) (memory marks.new entries.new table.new) a) }
    ensures filed_anew { OnOk result (filing.old.kept.kept ≡ false → Filed W.Weight filing.new) }
    ensures least { IfOk result (λ a. Current W.Weight filing.old → Least W.Weight (model_of filing.old.plan) (W.Weight.value a.figure) marks.new) }
    ensures mergers { IfOk result (λ a. a.mergers ≤ length entries.old) }
    ensures units { OnOk result (filing.old.plan.unit_count ≤ length marks.old) }
    ensures same { filing.new.plan.unit_count ≡ filing.old.plan.unit_count }
    ensures refused { OnErr result (Unchanged filing.old filing.new (memory marks.old entries.old table.old) (memory marks.new entries.new table.new)) }
    ensures queue { MatchResult result (λ a. QueueLeft Q.PriorityQueue.key a.scans queue.old queue.new) (λ _. queue.new ≡ queue.old) }
{
    let n = filing.plan().unit_count();
    if n < 2 {
        return Err(Refusal::NoDivision);
    }
    check_room(n, marks.len(), entries.len(), table.len())?;
    if filing.kept().is_kept() {
        return Ok(answer_kept(filing, marks));
    }
    let answer = solve(filing.plan(), queue, marks, entries, table);
    filing.keep(marks);
    Ok(answer)
}
