// Units in a row, as gates along a canal: the ranges are the stretches from the first unit on.
ghost use Rattle.std.specs.Prelude.{refl};
ghost use Rattle.structures.specs.Line.{line};

use crate::lowest_first::{KeptRanges, LowestFirst};
use terms::{RangeNo, UnitNo};

pub type Line = LowestFirst<Stretches>;

pub struct Stretches;

impl KeptRanges for Stretches {
    ghost meaning = { line };

    // One for each unit.
    fn ranges(units: u16) -> u32 {
        units as u32
    }

    // Range q holds the units 0 to q.
    fn holds(units: u16, range: RangeNo, unit: UnitNo) -> bool {
        range.0 < units as u32 && unit.0 as u32 <= range.0
    }

    ghost has_units = { λ n few. refl };

    ghost chooses_lowest = { λ n few J. refl };
}
