// Questions to a draw, which change nothing in it.
ghost use Rattle.pivotal.specs.Questions.{ToldUnit, ToldRoll, RollIsDetermined};
ghost use Rattle.pivotal.specs.Register.{register};

use crate::draw::Draw;
use crate::table::UnitRecord;
use terms::{Fault, UnitNo};

impl<S> Draw<S> {
    // The measure, the start numerator and the present numerator of a unit. Whether the draw is set is
    // asked before the number is looked at.
    pub fn unit(&self, unit: UnitNo) -> Result<UnitRecord, Fault>
        ensures { ToldUnit (register self.now.table) unit.0 result }
    {
        self.table.denominator.ok_or(Fault::NotSet)?;
        let record = self.table.records.get(unit.0 as usize);
        record.copied().ok_or(Fault::NumberTooHigh)
    }

    // Writes the numbers of the drawn units, rising, at the front of the list, and tells how many
    // there are. What stands behind them in the list is left as it was. It is the caller's list, since a
    // roll asks for no memory.
    #[tactic(auto, using(crate::proofs::OneRoll::roll_is_determined))]
    pub fn roll(&self, list: &mut [u16]) -> Result<usize, Fault>
        ensures told { ToldRoll (register self.now.table) list.old list.new result }
        ensures determined { RollIsDetermined }
    {
        let units = self.set_units()?;
        if let Some(unit) = units.lowest_open() {
            return Err(Fault::StillOpen(unit));
        }
        let needed = units.count_drawn();
        if list.len() < needed as usize {
            return Err(Fault::ListTooShort(needed));
        }
        units.write_drawn(list);
        Ok(needed as usize)
    }
}
