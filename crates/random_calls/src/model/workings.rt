// What the model says to weakest and trial. What was seen of the library's call is given, as which of several weakest
// divisions comes is open.
ghost use Rattle.std.specs.Prelude.{◌<◌, ◌≤◌, OnOk, length, vec_len};

use crate::model::divisions::Network;
use crate::model::{Lent, Model, Reply, Seen, Trouble};

impl Model {
    // An accepted weakest keeps its marks; while some are kept, it answers those.
    pub fn weakest(&mut self, lent: Lent, seen: &Seen) -> Result<Reply, Trouble>
        ensures { OnOk result ((2 ≤ vec_len self.old.codes) × (vec_len self.old.codes ≤ vec_len seen.now.marks)) }
    {
        let units = self.codes.len();
        let marks = seen.marks.as_slice();
        if units < 2 {
            return Err(Trouble::Refused(15));
        }
        if lent.is_short(units) || marks.len() < units {
            return Err(Trouble::Refused(17));
        }
        let expected = self.network().judged(self.kept.is_some(), seen);
        if self
            .kept
            .as_ref()
            .is_some_and(|sides| sides.as_slice() != &marks[0..units])
        {
            return Err(Trouble::WrongMarks);
        }
        self.kept = Some(marks[0..units].to_vec(self.heap)?);
        expected
    }

    // The same with one link out of service; kept marks are neither answered nor touched.
    pub fn trial(&self, link: usize, lent: Lent, seen: &Seen) -> Result<Reply, Trouble>
        ensures { OnOk result (link < vec_len self.now.wires) }
    {
        let units = self.codes.len();
        if link >= self.wires.len() {
            return Err(Trouble::Refused(13));
        }
        if lent.is_short(units) {
            return Err(Trouble::Refused(17));
        }
        let mut wires = self.wires.clone()?;
        if let Some(wire) = wires.get_mut(link) {
            wire.serves = false;
        }
        let network = Network {
            units,
            wires: wires.as_slice(),
        };
        network.judged(false, seen)
    }
}
