// What a kind of weight is.
ghost use Rattle.std.specs.Prelude.{◌≡◌, ℕ, ◌+◌, ◌^◌, ◌<◌, ◌≤◌, Bool, slice_index};
ghost use Rattle.weights.specs.Laws.{Laws, Exact, Limited, limit};

use refusals::Refusal;

// A weight that is made, and a sum, has at most this amount.
pub const LIMIT: u32 = 2_000_000;

// A weight is exactly its parts, one to eight unsigned 32-bit numbers. Its meaning is a value of
// `Value`, on which sum, order and amount are given; the laws hold wherever no sum is refused.
pub trait Weight: Copy {
    // the byte that stands for the kind in a sheet; the rules name an associated constant, so no enum lists the kinds
    const KIND: u8;

    ghost KIND: { ℕ };

    // how many parts a weight has
    const PARTS: usize;

    ghost PARTS: { ℕ };

    ghost Value: { Type 0 };

    ghost value: { Self → Value };

    // nothing, the weight of no link
    ghost zero: { Value };

    ghost plus: { Value → Value → Value };

    ghost le: { Value → Value → Bool };

    ghost size: { Value → ℕ };

    // the value with given parts
    ghost of: { (ℕ → ℕ) → Value };

    ghost nth: { Value → ℕ → ℕ };

    fn nothing() -> Self
        ensures { value result ≡ zero };

    // Both together, refused (12) exactly where the amounts pass the limit.
    fn sum(self, other: Self) -> Result<Self, Refusal>
        ensures { Limited result value (plus (value self) (value other)) (size (value self) + size (value other)) };

    fn at_most(self, other: Self) -> bool
        ensures { result ≡ le (value self) (value other) };

    fn amount(self) -> u32
        ensures { result ≡ size (value self) };

    // The weight with the given parts, refused (12) exactly where its amount would pass the limit.
    // A part that is not given is 0, and parts past the kind's number are not looked at.
    fn from_parts(parts: &[u32]) -> Result<Self, Refusal>
        ensures { Limited result value (of (λ i. slice_index parts.now i)) (size (of (λ i. slice_index parts.now i))) };

    // The part at a place, counted from 0; past the last one 0.
    fn part(self, i: usize) -> u32
        ensures { result ≡ nth (value self) i };

    ghost laws: { Laws zero plus le size };

    ghost exact: { Exact PARTS of nth };

    ghost bounded: { (x : Self) → size (value x) ≤ limit };

    ghost narrow: { (x : Self) (i : ℕ) → nth (value x) i < 2 ^ 32 };

    ghost told: { (x y : Self) → value x ≡ value y → x ≡ y };
}

// The number at a place, or 0 where there is none.
pub fn part_at(parts: &[u32], i: usize) -> u32
    ensures { result ≡ slice_index parts.now i }
{
    parts.get(i).copied().unwrap_or(0)
}

// Both together, where the amounts are known to keep the limit.
pub fn add<W: Weight>(a: W, b: W) -> W
    requires { W.Weight.size (W.Weight.value a) + W.Weight.size (W.Weight.value b) ≤ limit }
    ensures { W.Weight.value result ≡ W.Weight.plus (W.Weight.value a) (W.Weight.value b) }
{
    a.sum(b).unwrap()
}

// Both together, where the amounts keep the limit; where they do not, the first alone.
pub fn add_or_keep<W: Weight>(a: W, b: W) -> W
    ensures fits { W.Weight.size (W.Weight.value a) + W.Weight.size (W.Weight.value b) ≤ limit → W.Weight.value result ≡ W.Weight.plus (W.Weight.value a) (W.Weight.value b) }
    ensures over { limit < W.Weight.size (W.Weight.value a) + W.Weight.size (W.Weight.value b) → result ≡ a }
{
    a.sum(b).unwrap_or(a)
}
