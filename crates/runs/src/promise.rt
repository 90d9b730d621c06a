// The promise over any list of calls.
ghost use Rattle.runs.specs.Promise.{RunsPromised};

use weights::weight::Weight;

// Whatever calls are made of a plan from its opening on, refused ones included: replies that follow the rules call by
// call keep the promise, for every kind of weights that shows the laws and whichever queues served.
pub fn runs_keep_the_promise<W: Weight>()
    ensures { RunsPromised W.Weight }
{}
