// Units with no order among them: nothing but the size of the whole draw is kept.
ghost use Rattle.std.specs.Prelude.{refl};
ghost use Rattle.structures.specs.Loose.{loose};

use crate::lowest_first::{KeptRanges, LowestFirst};
use terms::{RangeNo, UnitNo};

pub type Loose = LowestFirst<NoRanges>;

pub struct NoRanges;

impl KeptRanges for NoRanges {
    ghost meaning = { loose };

    // There are none.
    fn ranges(_units: u16) -> u32 {
        0
    }

    fn holds(_units: u16, _range: RangeNo, _unit: UnitNo) -> bool {
        false
    }

    ghost has_units = { λ n few. refl };

    ghost chooses_lowest = { λ n few J. refl };
}
