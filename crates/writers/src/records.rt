// Writes the records of a sheet: the head, a code for each unit, then the links.
ghost use Rattle.std.specs.Prelude.{◌≡◌, map, length, nat_lt};
ghost use Rattle.codes.specs.Held.{bytes_of};
ghost use Rattle.plans.specs.Model.{code_of};
ghost use Rattle.sheets.specs.Format.{code_field, size_of_code, fours, bytes_of_head, link_bytes};
ghost use Rattle.std.specs.List.{flat_map};
ghost use Rattle.writers.specs.Fields.{Fits, Wrote};

use crate::pen::Pen;
use codes::code::FaultCode;
use plans::plan::{Link, Unit};
use sheets::head::MAGIC;
use sheets::issue::Issue;
use weights::weight::Weight;

// Whether a zero byte closes the field of a code.
fn is_closed(issue: Issue, code: FaultCode) -> bool
    ensures { result ≡ nat_lt (length (bytes_of code)) (size_of_code issue) }
{
    code.len() < issue.code_size()
}

impl Pen<'_> {
    // The head: issue, kind, and how many units and links follow.
    pub(crate) fn put_head<W: Weight>(&mut self, issue: Issue, units: u8, links: u16)
        requires { Fits self.old (bytes_of_head W.Weight issue units links) }
        ensures { Wrote self.old (bytes_of_head W.Weight issue units links) self.new }
    {
        self.put_bytes(&MAGIC);
        self.put_bytes(&issue.number().to_le_bytes());
        self.put_byte(W::KIND);
        self.put_byte(units);
        self.put_bytes(&links.to_le_bytes());
    }

    // A code, closed by a zero byte where it is shorter than its field.
    fn put_code(&mut self, issue: Issue, code: FaultCode)
        requires { Fits self.old (code_field issue (bytes_of code)) }
        ensures { Wrote self.old (code_field issue (bytes_of code)) self.new }
    {
        self.put_bytes(code.text());
        if is_closed(issue, code) {
            self.put_byte(0);
        }
    }

    // The codes of the units.
    pub(crate) fn put_codes(&mut self, issue: Issue, units: &[Unit])
        requires { Fits self.old (flat_map (code_field issue) (map code_of units.now)) }
        ensures { Wrote self.old (flat_map (code_field issue) (map code_of units.now)) self.new }
    {
        for unit in units {
            self.put_code(issue, unit.code);
        }
    }

    // The parts of a weight, four bytes each.
    fn put_weight<W: Weight>(&mut self, weight: W)
        requires { Fits self.old (fours (W.Weight.nth (W.Weight.value weight)) W.Weight.PARTS) }
        ensures { Wrote self.old (fours (W.Weight.nth (W.Weight.value weight)) W.Weight.PARTS) self.new }
    {
        // the range numbers the parts, which a weight gives one at a time
        for i in 0..W::PARTS {
            self.put_bytes(&weight.part(i).to_le_bytes());
        }
    }

    // A link: unit, unit, mark (1 in service, 0 out) and weight.
    fn put_link<W: Weight>(&mut self, link: Link<W>)
        requires { Fits self.old (link_bytes W.Weight link) }
        ensures { Wrote self.old (link_bytes W.Weight link) self.new }
    {
        self.put_byte(link.first);
        self.put_byte(link.second);
        self.put_byte(u8::from(link.in_service));
        self.put_weight(link.weight);
    }

    // The links.
    pub(crate) fn put_links<W: Weight>(&mut self, links: &[Link<W>])
        requires { Fits self.old (flat_map (link_bytes W.Weight) links.now) }
        ensures { Wrote self.old (flat_map (link_bytes W.Weight) links.now) self.new }
    {
        for link in links {
            self.put_link(*link);
        }
    }
}
