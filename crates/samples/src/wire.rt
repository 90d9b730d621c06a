// Links and weight kinds as plain values, apart from the library's own.
ghost use Rattle.std.specs.Prelude.{◌≡◌, ◌↔◌, All, IsTrue, length};
ghost use Rattle.std.specs.List.{zip};
ghost use Rattle.plans.specs.Model.{code_of, model_of};
ghost use Rattle.samples.specs.Wires.{parts_of, wire_of};

use plans::plan::{Link, Plan, Unit};
use weights::weight::Weight;

// The kinds of weights.
#[derive(Clone, Copy, PartialEq, Eq, Debug)]
pub enum WeightKind {
    Plain,
    Ranked,
}

// The parts of a weight, of which the second is 0 at the plain kind.
pub type Parts = (u32, u32);

// A link: its two ends, whether it is in service, and the parts of its weight.
#[derive(Clone, Copy, PartialEq, Eq, Debug)]
pub struct Wire {
    pub ends: (usize, usize),
    pub serves: bool,
    pub parts: Parts,
}

// The parts of the library's weight.
pub fn parts_of<W: Weight>(weight: W) -> Parts
    ensures { result ≡ parts_of W.Weight weight }
{
    (weight.part(0), weight.part(1))
}

// The library's link as plain values.
impl<W: Weight> From<Link<W>> for Wire {
    ghost from_gives = { λ link wire. wire ≡ wire_of W.Weight link };

    fn from(link: Link<W>) -> Wire {
        Wire {
            ends: (link.first as usize, link.second as usize),
            serves: link.in_service,
            parts: parts_of(link.weight),
        }
    }
}

// Whether units bear these codes, in order.
pub fn bear_codes(units: &[Unit], codes: &[Vec<u8>]) -> bool
    ensures { IsTrue result ↔ (length units.now ≡ length codes.now) × All (λ p. code_of p.0 ≡ p.1.items) (zip units.now codes.now) }
{
    units.len() == codes.len()
        && units
            .iter()
            .zip(codes)
            .all(|(unit, code)| unit.code.text() == code.as_slice())
}

// Whether links are these wires, in order.
pub fn are_wires<W: Weight>(links: &[Link<W>], wires: &[Wire]) -> bool
    ensures { IsTrue result ↔ (length links.now ≡ length wires.now) × All (λ p. wire_of W.Weight p.0 ≡ p.1) (zip links.now wires.now) }
{
    links.len() == wires.len()
        && links
            .iter()
            .zip(wires)
            .all(|(link, wire)| Wire::from(*link) == *wire)
}

// Whether a plan has just these codes and links, in order.
pub fn is_made_of<W: Weight>(plan: &Plan<W>, codes: &[Vec<u8>], wires: &[Wire]) -> bool
    ensures codes { IsTrue result → length (model_of plan.now).codes ≡ length codes.now }
    ensures links { IsTrue result → (length (model_of plan.now).links ≡ length wires.now) × All (λ p. wire_of W.Weight p.0 ≡ p.1) (zip (model_of plan.now).links wires.now) }
{
    bear_codes(plan.units(), codes) && are_wires(plan.links(), wires)
}
