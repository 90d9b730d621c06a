// Why the figure is least: each function's contract is a theorem, for every kind of weights that shows the laws.
ghost use Rattle.cuts.specs.Kinds.{kind_of};
ghost use Rattle.cuts.specs.Claims.{GroundsSafe, ScanSafe, OrderSafe, GroupsNamed, ScanMerges, RecordLeast, RecordExists, TurnedWeakest, AlikeSame};
ghost use Rattle.cuts.specs.Outcomes.{OutcomePromised};
ghost use Rattle.cuts.specs.Noted.{NotedSame};
ghost use Rattle.cuts.specs.Edits.{ChangeKeeps, EditsKeep};
ghost use Rattle.cuts.specs.Sums.{NoSumRefused};

use weights::weight::Weight;

// Grounds 1 to 4: merging a pair that meets a test loses no weakest division.
pub fn grounds_are_safe<W: Weight>()
    ensures { GroundsSafe (kind_of W.Weight) }
{}

// Ground 5: no division that parts a pair found by a scan weighs less than best at the scan's start. Keys need be
// compared only up to a cap.
pub fn scan_is_safe<W: Weight>()
    ensures { ScanSafe (kind_of W.Weight) }
{}

// Ground 5 where each group taken was a heaviest, with no cap.
pub fn order_is_safe<W: Weight>()
    ensures { OrderSafe (kind_of W.Weight) }
{}

// After mergers a group goes by its lowest unit, and each merger leaves one group fewer.
pub fn groups_are_named()
    ensures { GroupsNamed }
{}

// Every scan of the work finds a pair and merges it, so that the work comes to an end.
pub fn scan_merges<W: Weight>()
    ensures { ScanMerges (kind_of W.Weight) }
{}

// No sum of the work is refused, as the links of a plan are light enough: none in filling the table, in a merger, in a
// test or in a scan. Nor is one in which a division is weighed.
pub fn no_sum_is_refused<W: Weight>()
    ensures { NoSumRefused (kind_of W.Weight) }
{}

// The record theorem: where the work ends, best is a weakest division, and at the start and after each merger the
// figure is the least among the degrees of the groups so far and the weights of divisions that keep the groups whole.
pub fn record_is_least<W: Weight>()
    ensures { RecordLeast (kind_of W.Weight) }
{}

// The rules allow some record for every plan of two or more units.
pub fn record_exists<W: Weight>()
    ensures { RecordExists (kind_of W.Weight) }
{}

// The promise of an answer: figure and marks are those of a weakest division, and the record shows it.
pub fn outcome_is_promised<W: Weight>()
    ensures { OutcomePromised (kind_of W.Weight) }
{}

// Merging the found pairs, or only those that join two classes, comes to the same.
pub fn noted_is_same<W: Weight>()
    ensures { NotedSame (kind_of W.Weight) }
{}

// A weakest division turned over is a weakest division of the same weight.
pub fn turned_is_weakest<W: Weight>()
    ensures { TurnedWeakest (kind_of W.Weight) }
{}

// Plans with the same joint weight for every two units weigh each division the same, and have the same figure.
pub fn alike_have_one_figure<W: Weight>()
    ensures { AlikeSame (kind_of W.Weight) }
{}

// Marks stay weakest where one link adds no less, with both ends on one side, or no more, with ends on different sides.
pub fn change_keeps<W: Weight>()
    ensures { ChangeKeeps (kind_of W.Weight) }
{}

// Marks stay weakest under each edit that keeps them.
pub fn edits_keep<W: Weight>()
    ensures { EditsKeep (kind_of W.Weight) }
{}
