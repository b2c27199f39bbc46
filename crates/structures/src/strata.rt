// Strata on top of another structure: its units are divided into groups, and pairs are made within a
// group as long as that is possible.
ghost use Rattle.std.specs.Prelude.{◌≡◌, ℕ, ◌+◌, ◌<◌, ◌≤◌, [], length, slice_index, OnErr};
ghost use Rattle.std.specs.Option.{option_map};
ghost use Rattle.structures.specs.Extremes.{FirstFound};
ghost use Rattle.structures.specs.Lowest.{lowest};
ghost use Rattle.structures.specs.Marks.{marked};
ghost use Rattle.structures.specs.Sets.{both};
ghost use Rattle.structures.specs.Strata.{InStrata, stratum_at, of_stratum, stratum_has_two, RangesInOrder, Stratified};
ghost use Rattle.structures.specs.StrataLaws.{layer};
ghost use Rattle.terms.specs.Counts.{count as counted};
ghost use Rattle.terms.specs.Faults.{OutOfMemoryOnlyIf};

use crate::copying::copied;
use crate::structure::{Audited, Structure};
use std::alloc::Global;
use terms::{Fault, RangeNo, StratumNo, UnitNo};

// The most strata that there may be.
const MAX_STRATA: u32 = 64;

// The most ranges: the greatest number that a caller can be told.
const MAX_RANGES: u64 = 4_294_967_295;

#[derive(Drop)]
pub struct Strata<B> {
    // Where the stratum numbers of the next filling are kept.
    heap: Global,
    below: B,
    // How many strata there are.
    count: u8,
    // The stratum of each unit; a unit that the list does not have is in stratum 0.
    strata: Vec<StratumNo>,
    ghost ok: { InStrata count strata.items },
}

impl<B: Audited> Strata<B> {
    // One stratum with every unit.
    pub fn new(heap: Global, below: B) -> Strata<B>
        ensures over { result.below ≡ below }
        ensures one { result.count ≡ 1 }
        ensures none { result.strata.items ≡ [] }
        ensures ordered { RangesInOrder }
        ensures lowest_stratum { FirstFound }
    {
        Strata {
            heap,
            below,
            count: 1,
            strata: Vec::new(heap),
        }
    }

    // Puts these strata in the place of those before. A refusal changes nothing. Want of memory is told
    // only where there are numbers to copy.
    pub fn fill(&mut self, count: u32, strata: &[StratumNo]) -> Result<(), Fault>
        ensures filled { Stratified (B.Structure.meaning self.old.below) count strata.now self.new.count self.new.strata.items result }
        ensures memory { OutOfMemoryOnlyIf result (1 ≤ length strata.now) }
        ensures kept { OnErr result (self.new ≡ self.old) }
        ensures same_below { self.new.below ≡ self.old.below }
    {
        if count == 0 || count > MAX_STRATA || strata.len() != self.below.units() as usize {
            return Err(Fault::StrataOutOfRange);
        }
        if let Some(unit) = strata.iter().position(|stratum| stratum.0 as u32 >= count) {
            return Err(Fault::StratumTooHigh(UnitNo(unit as u16)));
        }
        if count as u64 * self.width() > MAX_RANGES {
            return Err(Fault::TooManyRanges);
        }
        // The only step that can fail comes before any change.
        let numbers = copied(self.heap, strata)?;
        self.strata = numbers;
        self.count = count as u8;
        Ok(())
    }

    // How many ranges each stratum makes: itself, and what it shares with each range below.
    fn width(&self) -> u64
        ensures { result ≡ (B.Structure.meaning self.now.below).ranges + 1 }
    {
        self.below.ranges() as u64 + 1
    }

    // The stratum of a unit.
    fn stratum_of(&self, unit: usize) -> StratumNo
        ensures { result.0 ≡ stratum_at self.now.strata.items unit }
    {
        self.strata.get(unit).copied().unwrap_or(StratumNo(0))
    }

    // How many marked units each stratum has, with a place for every stratum that there can be: fixed
    // memory, as a draw must not allocate while it steps.
    fn counts(&self, marks: &[u8]) -> [u16; 64]
        ensures len { length result ≡ 64 }
        ensures counts { (u : ℕ) → u < 64 → slice_index result u ≡ counted (both (marked (B.Structure.meaning self.now.below).units marks.now) (of_stratum (stratum_at self.now.strata.items) u)) (B.Structure.meaning self.now.below).units }
    {
        let mut counts = [0u16; 64];
        for (unit, mark) in marks.iter().enumerate().take(self.below.units() as usize) {
            if *mark != 0 {
                counts[self.stratum_of(unit).0 as usize] += 1;
            }
        }
        counts
    }

    // The lowest-numbered stratum that has two marked units.
    fn lowest_with_two(&self, marks: &[u8]) -> Option<StratumNo>
        ensures { option_map (λ found. found.0) result ≡ lowest (stratum_has_two (B.Structure.meaning self.now.below) (stratum_at self.now.strata.items) (marked (B.Structure.meaning self.now.below).units marks.now)) self.now.count }
    {
        self.counts(marks)
            .iter()
            .take(self.count as usize)
            .position(|marked| *marked >= 2)
            .map(|stratum| StratumNo(stratum as u8))
    }
}

impl<B: Audited> Structure for Strata<B> {
    ghost meaning = { λ made. layer (B.Structure.meaning made.below) made.count (stratum_at made.strata.items) };

    fn units(&self) -> u16 {
        self.below.units()
    }

    // The choice of the structure below: among the marked units of the lowest-numbered stratum that has
    // two, and among all where none has.
    fn choice(&self, marks: &[u8]) -> Option<(UnitNo, UnitNo)> {
        let Some(stratum) = self.lowest_with_two(marks) else {
            return self.below.choice(marks);
        };
        // What is lent below marks the units of this stratum alone. It is fixed memory on purpose, as a draw
        // must not allocate, and written by place: of bytes lent by `iter_mut` a proof knows no value.
        let mut masked = [0u8; 1024];
        for (unit, mark) in marks.iter().enumerate().take(self.below.units() as usize) {
            if *mark != 0 && self.stratum_of(unit) == stratum {
                masked[unit] = 1;
            }
        }
        self.below.choice(&masked)
    }
}

impl<B: Audited> Audited for Strata<B> {
    // None where one stratum alone would make too many. No filling is taken there either.
    fn ranges(&self) -> u32 {
        u32::try_from(self.count as u64 * self.width()).unwrap_or(0)
    }

    // The quotient is the stratum; the remainder is 0 for the whole of it, else one more than the
    // number of the range below.
    fn holds(&self, range: RangeNo, unit: UnitNo) -> bool {
        if range.0 >= self.ranges() {
            return false;
        }
        let width = self.width();
        if self.stratum_of(unit.0 as usize).0 as u64 != range.0 as u64 / width {
            return false;
        }
        let part = range.0 as u64 % width;
        if part == 0 {
            return unit.0 < self.below.units();
        }
        self.below.holds(RangeNo((part - 1) as u32), unit)
    }
}
