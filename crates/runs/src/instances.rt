// The promise over runs at the two kinds of weights, plain and ranked: a theorem for each, so that a reader finds it at a kind by
// its name.
ghost use Rattle.weights.specs.contracts.plain.PlainWeight.TheImpl.{ghosts as plainKind};
ghost use Rattle.weights.specs.contracts.ranked.RankedWeight.TheImpl.{ghosts as rankedKind};
ghost use Rattle.runs.specs.Promise.{RunsPromised};

use crate::promise::runs_keep_the_promise;
use weights::plain::Plain;
use weights::ranked::Ranked;

// For plain weights.
pub fn plain_runs_keep_the_promise()
    ensures { RunsPromised plainKind }
{
    runs_keep_the_promise::<Plain>()
}

// For ranked weights.
pub fn ranked_runs_keep_the_promise()
    ensures { RunsPromised rankedKind }
{
    runs_keep_the_promise::<Ranked>()
}
