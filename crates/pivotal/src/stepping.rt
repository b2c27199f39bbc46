// A step: two open units, or the one that is left, settle by a number drawn from random words.
ghost use Rattle.std.specs.Prelude.{◌≡◌, ◌-◌, true, Some, None, vec_len};
ghost use Rattle.pivotal.specs.Register.{opened, presents, register, Measured};
ghost use Rattle.pivotal.specs.Settling.{ResidueSettles, SettlingIsEven};
ghost use Rattle.pivotal.specs.Stepping.{Settles, Stepped};

use crate::draw::Draw;
use crate::settling::settle;
use crate::table::Table;
use structures::Structure;
use terms::{Fault, UnitNo};
use words::{WordSource, draw_below};

// What a step did: the units that it settled, and the number that it drew below the bound.
#[derive(Clone, Copy, Debug)]
pub struct StepRecord {
    pub first: UnitNo,
    pub second: Option<UnitNo>,
    pub bound: u64,
    pub number: u32,
}

// The denominator is handed on by the step, which has asked whether the table is set.
impl Table {
    // Settles two open units against each other.
    pub(crate) fn settle_pair<W: WordSource>(
        &mut self,
        denominator: u32,
        first: UnitNo,
        second: UnitNo,
        words: &mut W,
    ) -> Result<StepRecord, Fault>
        requires first_open { opened denominator self.old.records.items first.0 ≡ true }
        requires second_open { opened denominator self.old.records.items second.0 ≡ true }
        ensures settles { Settles denominator self.old.records.items first.0 (Some second.0) (presents self.old.records.items second.0) (W.WordSource.source words.old) self.new.records.items (W.WordSource.source words.new) result }
        ensures same_len { vec_len self.new.records ≡ vec_len self.old.records }
        ensures same_over { self.new.denominator ≡ self.old.denominator }
        ensures measured { Measured self.old.records.items → Measured self.new.records.items }
    {
        let a = self.present_of(first);
        let b = self.present_of(second);
        let settling = settle(denominator, a, b);
        let number = draw_below(words, settling.bound)?;
        let (one, other) = settling.outcome(number);
        self.record_mut(first).present = one;
        self.record_mut(second).present = other;
        Ok(StepRecord {
            first,
            second: Some(second),
            bound: settling.bound,
            number,
        })
    }

    // Settles the unit that is open alone against what it lacks of the denominator. A function of its own:
    // one for both, over a second unit that may be missing, would have to ask for it three times.
    pub(crate) fn settle_alone<W: WordSource>(
        &mut self,
        denominator: u32,
        unit: UnitNo,
        words: &mut W,
    ) -> Result<StepRecord, Fault>
        requires { opened denominator self.old.records.items unit.0 ≡ true }
        ensures settles { Settles denominator self.old.records.items unit.0 None (denominator - presents self.old.records.items unit.0) (W.WordSource.source words.old) self.new.records.items (W.WordSource.source words.new) result }
        ensures same_len { vec_len self.new.records ≡ vec_len self.old.records }
        ensures same_over { self.new.denominator ≡ self.old.denominator }
        ensures measured { Measured self.old.records.items → Measured self.new.records.items }
    {
        let a = self.present_of(unit);
        let residue = settle(denominator, a, denominator - a);
        let number = draw_below(words, residue.bound)?;
        let (one, _) = residue.outcome(number);
        self.record_mut(unit).present = one;
        Ok(StepRecord {
            first: unit,
            second: None,
            bound: residue.bound,
            number,
        })
    }
}

impl<S: Structure> Draw<S> {
    // Settles two open units, chosen by the structure, or the one that is left.
    #[tactic(auto, using(crate::proofs::Evenness::settling_is_even))]
    pub fn step<W: WordSource>(&mut self, words: &mut W) -> Result<StepRecord, Fault>
        ensures stepped { Stepped (S.Structure.meaning self.old.structure) (register self.old.table) (W.WordSource.source words.old) (register self.new.table) (W.WordSource.source words.new) result }
        ensures residue { ResidueSettles }
        ensures even { SettlingIsEven }
        ensures same_structure { self.new.structure ≡ self.old.structure }
    {
        let units = self.set_units()?;
        let lowest = units.lowest_open().ok_or(Fault::NothingOpen)?;
        let marks = units.open_marks();
        let denominator = units.denominator;
        let Some((first, second)) = self.structure.choice(&marks) else {
            return self.table.settle_alone(denominator, lowest, words);
        };
        self.table.settle_pair(denominator, first, second, words)
    }
}
