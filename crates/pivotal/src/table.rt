// The table of units. A write to it goes through a loan of a single record.
ghost use Rattle.std.specs.Borrow.{follows, sem};
ghost use Rattle.std.specs.Prelude.{◌≡◌, ◌<◌, vec_len, ◌==◌, slice_index_or};
ghost use Rattle.pivotal.specs.Register.{between, presents};
ghost use Rattle.pivotal.specs.contracts.table.Table.{the_row};
ghost use Rattle.pivotal.specs.contracts.table.UnitRecord.{the_row as record_row};
ghost use Rattle.std.specs.Vec.{with_item};

use terms::UnitNo;

// What the register knows of a unit. Before the setting both numerators are 0.
#[derive(Clone, Copy, PartialEq, Eq, Debug)]
pub struct UnitRecord {
    pub measure: u32,
    pub start: u32,
    pub present: u32,
}

// Plain memory: what has to hold of it is said by the draw that holds it.
#[derive(Drop)]
pub(crate) struct Table {
    pub(crate) records: Vec<UnitRecord>,
    pub(crate) denominator: Option<u32>,
}

// A record does not know the denominator, which all of them share, and is told it.
impl UnitRecord {
    // Whether the unit's numerator lies between 0 and the denominator.
    pub(crate) fn is_open(&self, denominator: u32) -> bool
        ensures { result ≡ between denominator self.now.present }
    {
        0 < self.present && self.present < denominator
    }

    // Whether the unit's numerator is the denominator.
    pub(crate) fn is_drawn(&self, denominator: u32) -> bool
        ensures { result ≡ (self.now.present == denominator) }
    {
        self.present == denominator
    }
}

impl Table {
    // The present numerator of a unit.
    pub(crate) fn present_of(&self, unit: UnitNo) -> u32
        requires { unit.0 < vec_len self.now.records }
        ensures { result ≡ presents self.now.records.items unit.0 }
    {
        self.records[unit.0 as usize].present
    }

    // The record of one unit, lent to be changed.
    pub(crate) fn record_mut(&mut self, unit: UnitNo) -> &mut UnitRecord
        requires { unit.0 < vec_len self.old.records }
        ensures* lends { sem 𝓛 (follows the_row record_row self.entry.ghost_name result.ghost_name (λ w. record { records = with_item self.old.records unit.0 w; denominator = self.old.denominator })) }
        ensures value { result.now ≡ slice_index_or self.old.records.items unit.0 result.now }
    {
        &mut self.records[unit.0 as usize]
    }
}
