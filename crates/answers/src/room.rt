// What weakest and trial ask of the memory that they are lent.
ghost use Rattle.std.specs.Prelude.{◌≡◌, ℕ, ◌*◌, ◌≤◌, true, false, MatchResult};
ghost use Rattle.answers.specs.Answered.{enough};

use refusals::Refusal;

// Whether the lent memory suffices for n units: 17 under one mark and one entry for each, or n × n weights.
// Of sizes and not of slices, since this is asked of callers that know no more; so the check of lent memory is not called.
pub fn check_room(n: usize, marks: usize, entries: usize, weights: usize) -> Result<(), Refusal>
    requires { n ≤ 64 }
    ensures room { MatchResult result (λ _. (n ≤ marks) × (n ≤ entries) × (n * n ≤ weights)) (λ e. e ≡ Refusal.ShortMemory) }
    ensures enough { MatchResult result (λ _. enough n marks entries weights ≡ true) (λ _. enough n marks entries weights ≡ false) }
{
    if marks < n || entries < n || weights < n * n {
        return Err(Refusal::ShortMemory);
    }
    Ok(())
}
