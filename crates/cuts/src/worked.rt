// Worked plans, each checked from the definitions: every division is tried, and the record is replayed.
ghost use Rattle.std.specs.Prelude.{[], ◌∷◌};
ghost use Rattle.cuts.specs.Divisions.{Figure};
ghost use Rattle.cuts.specs.Worked.{AllRight, on, plain, ranked, plain_cases, ranked_cases};

// The figure of the plan with links 0-1 of 3, 1-2 of 1, 2-3 of 4 and 0-3 of 2 conductors.
pub fn four_units() -> u8
    ensures { Figure plain 4 (on 0 1 3 ∷ on 1 2 1 ∷ on 2 3 4 ∷ on 0 3 2 ∷ []) result }
{
    3
}

// Figure, marks and record of each worked plan with plain weights.
pub fn plain_plans()
    ensures { AllRight plain plain_cases }
{}

// The same with ranked weights.
pub fn ranked_plans()
    ensures { AllRight ranked ranked_cases }
{}
