// A plan over lent link memory.
ghost use Rattle.std.specs.Prelude.{◌≡◌, ℕ, ◌<◌, ◌≤◌, [], length, nat_le};
ghost use Rattle.plans.specs.Calls.{accepted, check, most_links, reply_of};
ghost use Rattle.plans.specs.Model.{model_of};

use crate::plan::{LINKS, Link, Plan, UNITS, Unit};
use codes::code::FaultCode;
use refusals::Refusal;
use refusals::memory::enough;
use weights::weight::Weight;

impl<W: Weight> Link<W> {
    // A link to fill memory with that is to be lent.
    pub fn blank() -> Link<W>
        ensures { W.Weight.value result.weight ≡ W.Weight.zero }
    {
        Link {
            first: 0,
            second: 0,
            in_service: false,
            weight: W::nothing(),
        }
    }
}

impl<'a, W: Weight> Plan<'a, W> {
    // Whether memory suffices to open a plan: 17 below 512 links.
    pub fn check(links: &[Link<W>]) -> Result<(), Refusal>
        ensures { result ≡ reply_of (check (nat_le most_links (length links.now)) Refusal.ShortMemory accepted) tt }
    {
        enough(links, LINKS)
    }

    // A plan with no units and no links.
    pub fn open(links: &'a mut [Link<W>]) -> Plan<'a, W>
        requires { most_links ≤ length links.old }
        ensures model { model_of result ≡ record { codes = []; links = [] } }
        ensures memory { result.links.now ≡ links.old }
    {
        let blank = Unit {
            code: FaultCode::blank(),
        };
        Plan {
            units: [blank; UNITS],
            unit_count: 0,
            links,
            link_count: 0,
            total: 0,
        }
    }

    // No units and no links are left.
    pub fn clear(&mut self)
        ensures model { model_of self.new ≡ record { codes = []; links = [] } }
        ensures memory { self.new.links.now ≡ self.old.links.now }
    {
        self.unit_count = 0;
        self.link_count = 0;
        self.total = 0;
    }
}
