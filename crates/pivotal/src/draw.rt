// A draw over a structure.
ghost use Rattle.std.specs.Prelude.{◌≡◌, ◌≤◌, [], MatchResult, Some, None, vec_len, vec_capacity};
ghost use Rattle.pivotal.specs.Adding.{Added};
ghost use Rattle.pivotal.specs.Register.{register, Measured};
ghost use Rattle.terms.specs.Faults.{tells, OutOfMemoryOnlyIf};

use crate::set_units::SetUnits;
use crate::table::{Table, UnitRecord};
use std::alloc::Global;
use structures::Structure;
use terms::{Fault, UnitNo};

// The largest measure that a unit may have.
const MAX_MEASURE: u32 = 1_000_000;

#[derive(Drop)]
pub struct Draw<S> {
    pub(crate) structure: S,
    pub(crate) table: Table,
    ghost few: { vec_len table.records ≤ 1024 },
    ghost measured: { Measured table.records.items },
}

impl<S: Structure> Draw<S> {
    // A draw without units, and not set.
    pub fn new(heap: Global, structure: S) -> Draw<S>
        ensures fresh { register result.table ≡ record { rows = []; over = None } }
        ensures over { result.structure ≡ structure }
    {
        Draw {
            structure,
            table: Table {
                records: Vec::new(heap),
                denominator: None,
            },
        }
    }

    // Adds a unit of this measure, and tells its number. Want of memory is told only where the table
    // had no room left.
    pub fn add(&mut self, measure: u32) -> Result<UnitNo, Fault>
        ensures added { Added (S.Structure.meaning self.old.structure) (register self.old.table) measure (register self.new.table) result }
        ensures memory { OutOfMemoryOnlyIf result (vec_capacity self.old.table.records ≤ vec_len self.old.table.records) }
        ensures same_structure { self.new.structure ≡ self.old.structure }
    {
        if self.table.denominator.is_some() {
            return Err(Fault::AlreadySet);
        }
        let added = self.table.records.len();
        if added >= self.structure.units() as usize {
            return Err(Fault::RegisterFull);
        }
        let unit = UnitNo(added as u16);
        if measure == 0 || measure > MAX_MEASURE {
            return Err(Fault::MeasureOutOfRange(unit));
        }
        self.table.records.push(UnitRecord {
            measure,
            start: 0,
            present: 0,
        })?;
        Ok(unit)
    }
}

impl<S> Draw<S> {
    // The units of the draw with their denominator. A draw that is not set is refused.
    pub(crate) fn set_units(&self) -> Result<SetUnits<'_>, Fault>
        ensures { MatchResult result (λ units. (self.now.table.denominator ≡ Some units.denominator) × (units.records.now ≡ self.now.table.records.items)) (λ fault. (self.now.table.denominator ≡ None) × (tells fault ≡ (10, 0))) }
    {
        let denominator = self.table.denominator.ok_or(Fault::NotSet)?;
        Ok(SetUnits {
            records: &self.table.records,
            denominator,
        })
    }
}
