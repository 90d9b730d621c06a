// The theorems at the two kinds of weights, plain and ranked: each is the theorem for every kind, stated without its trait.
ghost use Rattle.cuts.specs.Claims.{RecordLeast, AlikeSame};
ghost use Rattle.cuts.specs.Outcomes.{OutcomePromised};
ghost use Rattle.cuts.specs.Edits.{EditsKeep};
ghost use Rattle.cuts.specs.Worked.{plain, ranked};

use crate::theorems::{alike_have_one_figure, edits_keep, outcome_is_promised, record_is_least};
use weights::plain::Plain;
use weights::ranked::Ranked;

// The record theorem, for plain weights.
pub fn plain_record_is_least()
    ensures { RecordLeast plain }
{
    record_is_least::<Plain>()
}

// The record theorem, for ranked weights.
pub fn ranked_record_is_least()
    ensures { RecordLeast ranked }
{
    record_is_least::<Ranked>()
}

// The promise of an answer, for plain weights.
pub fn plain_outcome_is_promised()
    ensures { OutcomePromised plain }
{
    outcome_is_promised::<Plain>()
}

// The promise of an answer, for ranked weights.
pub fn ranked_outcome_is_promised()
    ensures { OutcomePromised ranked }
{
    outcome_is_promised::<Ranked>()
}

// Alike plans have one figure, for plain weights.
pub fn plain_alike_have_one_figure()
    ensures { AlikeSame plain }
{
    alike_have_one_figure::<Plain>()
}

// Alike plans have one figure, for ranked weights.
pub fn ranked_alike_have_one_figure()
    ensures { AlikeSame ranked }
{
    alike_have_one_figure::<Ranked>()
}

// Kept marks stay weakest, for plain weights.
pub fn plain_edits_keep()
    ensures { EditsKeep plain }
{
    edits_keep::<Plain>()
}

// Kept marks stay weakest, for ranked weights.
pub fn ranked_edits_keep()
    ensures { EditsKeep ranked }
{
    edits_keep::<Ranked>()
}
