// Whether lent memory suffices.
ghost use Rattle.std.specs.Prelude.{◌≡◌, ◌<◌, ◌≤◌, length, MatchResult};

use crate::Refusal;

// Whether lent memory has so many places: 17 if it has fewer.
pub fn enough<T>(memory: &[T], places: usize) -> Result<(), Refusal>
    ensures { MatchResult result (λ _. places ≤ length memory.now) (λ e. (length memory.now < places) × (e ≡ Refusal.ShortMemory)) }
{
    if memory.len() < places {
        return Err(Refusal::ShortMemory);
    }
    Ok(())
}
