// The units of a draw that is set, looked through.
ghost use Rattle.std.specs.Prelude.{◌≡◌, ℕ, ◌<◌, ◌≤◌, not, length, ◌==◌, slice_index};
ghost use Rattle.pivotal.specs.Questions.{Rolled, drawn_count};
ghost use Rattle.pivotal.specs.Register.{drawn, opened, FindsOpen};

use crate::table::UnitRecord;
use terms::UnitNo;

// All records, and the denominator of all their numerators.
#[derive(Clone, Copy)]
pub(crate) struct SetUnits<'a> {
    pub(crate) records: &'a [UnitRecord],
    pub(crate) denominator: u32,
    ghost few: { length records.now ≤ 1024 },
}

impl SetUnits<'_> {
    // The lowest-numbered open unit.
    pub(crate) fn lowest_open(&self) -> Option<UnitNo>
        ensures { FindsOpen self.now.denominator self.now.records.now result }
    {
        let lowest = self
            .records
            .iter()
            .position(|record| record.is_open(self.denominator))?;
        Some(UnitNo(lowest as u16))
    }

    // A byte for each unit that there can be: 1 where the unit is open, else 0. Fixed memory, written by
    // place: with `iter_mut` under a `zip`, and with `array::from_fn`, the proof did not close.
    pub(crate) fn open_marks(&self) -> [u8; 1024]
        ensures len { length result ≡ 1024 }
        ensures marks { (i : ℕ) → not (slice_index result i == 0) ≡ opened self.now.denominator self.now.records.now i }
    {
        let mut marks = [0u8; 1024];
        for (i, record) in self.records.iter().enumerate() {
            marks[i] = record.is_open(self.denominator) as u8;
        }
        marks
    }

    // How many units are drawn.
    pub(crate) fn count_drawn(&self) -> u16
        ensures { result ≡ drawn_count self.now.denominator self.now.records.now }
    {
        self.records
            .iter()
            .map(|record| record.is_drawn(self.denominator) as u16)
            .sum()
    }

    // Writes the numbers of the drawn units, rising, at the front of a list that has room for them.
    pub(crate) fn write_drawn(&self, list: &mut [u16])
        requires { drawn_count self.now.denominator self.now.records.now ≤ length list.old }
        ensures { Rolled self.now.denominator self.now.records.now list.old list.new (drawn_count self.now.denominator self.now.records.now) }
    {
        let drawn = (0..self.records.len() as u16).filter(|unit| self.is_drawn(*unit));
        // By place: of places lent by `iter_mut` a proof would not know what is written.
        for (place, unit) in drawn.enumerate() {
            list[place] = unit;
        }
    }

    // Whether a unit is drawn.
    fn is_drawn(&self, unit: u16) -> bool
        requires { unit < length self.now.records.now }
        ensures { result ≡ drawn self.now.denominator self.now.records.now unit }
    {
        self.records[unit as usize].is_drawn(self.denominator)
    }
}
