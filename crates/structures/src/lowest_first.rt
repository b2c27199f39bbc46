// Units that settle from the lowest number on, whatever ranges are kept over them.
ghost use Rattle.std.specs.Prelude.{◌≡◌, ℕ, ◌<◌, ◌≤◌, ⊤, MatchResult};
ghost use Rattle.structures.specs.Lowest.{two_lowest, LowestFound};
ghost use Rattle.structures.specs.Meaning.{Units, Meaning};
ghost use Rattle.terms.specs.Faults.{tells};

use crate::limits::within_limit;
use crate::lowest::two_lowest;
use crate::structure::{Audited, Structure};
use std::alloc::AllocError;
use std::marker::PhantomData;
use terms::{Fault, RangeNo, UnitNo};

// The ranges that are kept over any number of units. `few` goes with the number everywhere, since only
// up to 1,024 units have a meaning.
pub trait KeptRanges {
    // What so many units and their ranges mean, with the laws of a structure.
    ghost meaning: { (n : ℕ) → n ≤ 1024 → Meaning };

    // How many ranges there are.
    fn ranges(units: u16) -> u32
        ensures { (few : units ≤ 1024) → result ≡ (meaning units few).ranges };

    // Whether the range holds the unit; outside the numbers it does not.
    fn holds(units: u16, range: RangeNo, unit: UnitNo) -> bool
        ensures { (few : units ≤ 1024) → result ≡ (meaning units few).range range.0 unit.0 };

    // There are n units, and the two lowest-numbered marked ones are the pair.
    ghost has_units: { (n : ℕ) (few : n ≤ 1024) → (meaning n few).units ≡ n };

    ghost chooses_lowest: { (n : ℕ) (few : n ≤ 1024) (J : Units) → (meaning n few).choice J ≡ two_lowest J n };
}

pub struct LowestFirst<K> {
    units: u16,
    kept: PhantomData<K>,
    ghost few: { units ≤ 1024 },
}

// By hand: with a ghost field and a type parameter, no copy can be derived.
impl<K> Clone for LowestFirst<K> {
    ghost is_clone = { λ made copied. copied ≡ made };

    ghost is_infallible = { λ _. ⊤ };

    fn clone(&self) -> Result<LowestFirst<K>, AllocError> {
        Ok(*self)
    }
}

impl<K> Copy for LowestFirst<K> {}

impl<K: KeptRanges> LowestFirst<K> {
    // The structure of this many units. More than 1,024 are refused.
    #[tactic(auto, using(crate::specs::LowestLaws::lowest_found))]
    pub fn new(units: u32) -> Result<LowestFirst<K>, Fault>
        ensures answer { MatchResult result (λ made. (units ≤ 1024) × (made.units ≡ units)) (λ fault. (1024 < units) × (tells fault ≡ (17, 0))) }
        ensures lowest { LowestFound }
    {
        let units = within_limit(units as usize)?;
        Ok(LowestFirst {
            units,
            kept: PhantomData,
        })
    }
}

impl<K: KeptRanges> Structure for LowestFirst<K> {
    ghost meaning = { λ made. K.meaning made.units made.few };

    fn units(&self) -> u16 {
        self.units
    }

    // The two lowest-numbered marked units, the lower first.
    fn choice(&self, marks: &[u8]) -> Option<(UnitNo, UnitNo)> {
        two_lowest(self.units, marks)
    }
}

impl<K: KeptRanges> Audited for LowestFirst<K> {
    fn ranges(&self) -> u32 {
        K::ranges(self.units)
    }

    fn holds(&self, range: RangeNo, unit: UnitNo) -> bool {
        K::holds(self.units, range, unit)
    }
}
