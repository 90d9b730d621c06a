// What a plan is made of.
ghost use Rattle.plans.specs.Sound.{Sound};

use codes::code::FaultCode;
use weights::weight::Weight;

pub mod entries;
pub mod links;
pub mod looks;
pub mod opens;
pub mod weighs;

// A plan has at most so many units, and so many links.
pub const UNITS: usize = 64;

pub const LINKS: usize = 512;

// The amounts of all links of a plan, in service or out, add up to at most this.
pub const TOTAL: u32 = 1_000_000;

#[derive(Clone, Copy)]
pub struct Unit {
    pub code: FaultCode,
}

// Two different units by number, whether the link is in service, and its weight.
#[derive(Clone, Copy)]
pub struct Link<W> {
    pub first: u8,
    pub second: u8,
    pub in_service: bool,
    pub weight: W,
}

// The first `unit_count` units and the first `link_count` links are the plan's; what the memory holds
// past them is unsettled. No heap: units lie in fixed memory and links in lent memory, so each count stands beside.
#[derive(Drop)]
pub struct Plan<'a, W: Weight> {
    units: [Unit; UNITS],
    unit_count: usize,
    links: &'a mut [Link<W>],
    link_count: usize,
    // the amounts of all links together
    total: u32,
    // what every plan keeps; each call writes the links before the counts
    pub ghost sound: { Sound W.Weight units unit_count links.now link_count total },
}
