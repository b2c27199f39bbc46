// What a draw asks of a structure, and what an audit asks on top of that.
ghost use Rattle.std.specs.Prelude.{◌≡◌};
ghost use Rattle.structures.specs.Marks.{marked, named};
ghost use Rattle.structures.specs.Meaning.{Meaning};

use terms::{RangeNo, UnitNo};

pub trait Structure {
    // The units, the ranges and the choice, with the laws that they keep.
    ghost meaning: { Self → Meaning };

    // How many units the structure has, at most 1,024.
    fn units(&self) -> u16
        ensures { result ≡ (meaning self.now).units };

    // The two units to settle next among the marked ones, or none where fewer than two are marked.
    // A byte other than 0 marks its unit. A list that is too short marks no more, and the rest of one
    // that is too long is ignored.
    fn choice(&self, marks: &[u8]) -> Option<(UnitNo, UnitNo)>
        ensures { named result ≡ (meaning self.now).choice (marked (meaning self.now).units marks.now) };
}

// A structure that can list its ranges.
pub trait Audited: Structure {
    // How many ranges there are, at most 4,294,967,295.
    fn ranges(&self) -> u32
        ensures { result ≡ (Self.Structure.meaning self.now).ranges };

    // Whether the range holds the unit; outside the numbers it does not.
    fn holds(&self, range: RangeNo, unit: UnitNo) -> bool
        ensures { result ≡ (Self.Structure.meaning self.now).range range.0 unit.0 };
}
