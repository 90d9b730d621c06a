// The weight of a link, part by part.
ghost use Rattle.std.specs.Prelude.{◌≡◌, ℕ, ◌+◌, ◌*◌, ◌<◌, ◌≤◌, [], ◌∷◌, ◌++◌, length, IfOk, Some, None, MatchResult, slice_index};
ghost use Rattle.plans.specs.Calls.{most_total};
ghost use Rattle.plans.specs.Model.{amount_of};
ghost use Rattle.sheets.specs.Faults.{weight_verdict};
ghost use Rattle.sheets.specs.Fields.{link_place, number_fields, number_place, total_in, weight};
ghost use Rattle.readers.specs.Records.{Numbers, Reads, Weighed};

use crate::cursor::Cursor;
use plans::plan::TOTAL;
use refusals::Refusal;
use sheets::fault::{Fault, Part};
use weights::weight::Weight;

// Reads the numbers of a link's weight, one for each part.
fn read_numbers<W: Weight>(cursor: &mut Cursor, parts: &mut [u32]) -> Result<(), Fault>
    ensures part { cursor.new.part ≡ cursor.old.part }
    ensures reads { (k : ℕ) → cursor.old.part ≡ Part.Link k → cursor.old.at ≡ number_place W.Weight cursor.old.bytes.now k 0 → Reads W.Weight cursor.old.bytes.now (number_fields k (length parts.old)) result cursor.new (number_place W.Weight cursor.old.bytes.now k (length parts.old)) (λ _. Numbers W.Weight cursor.old.bytes.now k (length parts.old) parts.new) }
{
    for part in parts {
        *part = cursor.four_bytes()?;
    }
    Ok(())
}

// The weight with the given parts, after links whose amounts come to `total`: 11 if it is nothing, 12 if it cannot be
// made or the amounts together pass the limit.
fn judge<W: Weight>(parts: &[u32], total: u32) -> Result<W, Refusal>
    requires { total ≤ most_total }
    ensures { MatchResult result (λ w. (weight_verdict total (W.Weight.size (W.Weight.of (λ i. slice_index parts.now i))) ≡ None) × (W.Weight.value w ≡ W.Weight.of (λ i. slice_index parts.now i)) × (0 < W.Weight.size (W.Weight.value w)) × (total + W.Weight.size (W.Weight.value w) ≤ most_total)) (λ e. weight_verdict total (W.Weight.size (W.Weight.of (λ i. slice_index parts.now i))) ≡ Some e) }
{
    let weight = W::from_parts(parts)?;
    let amount = weight.amount();
    if amount == 0 {
        return Err(Refusal::NoWeight);
    }
    if total + amount > TOTAL {
        return Err(Refusal::OverLimit);
    }
    Ok(weight)
}

// Reads the weight of a link once all its numbers are whole: 11, 12. The amounts of the links before it come to `total`.
pub fn read_weight<W: Weight>(cursor: &mut Cursor, total: u32) -> Result<W, Fault>
    requires { total ≤ most_total }
    ensures some { IfOk result (λ w. (0 < amount_of W.Weight w) × (total + amount_of W.Weight w ≤ most_total)) }
    ensures reads { (k : ℕ) → cursor.old.part ≡ Part.Link k → cursor.old.at ≡ number_place W.Weight cursor.old.bytes.now k 0 → total ≡ total_in W.Weight cursor.old.bytes.now k → Reads W.Weight cursor.old.bytes.now (number_fields k W.Weight.PARTS ++ (weight k ∷ [])) result cursor.new (number_place W.Weight cursor.old.bytes.now k W.Weight.PARTS) (Weighed W.Weight cursor.old.bytes.now k) }
{
    let place = cursor.place();
    // No heap: memory for eight parts, the most that a weight has. The kind tells how many are read.
    let mut memory = [0u32; 8];
    let parts = &mut memory[..W::PARTS];
    read_numbers::<W>(cursor, parts)?;
    cursor.judged(judge(parts, total), place)
}
