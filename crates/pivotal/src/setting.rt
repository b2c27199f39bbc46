// Setting a draw by size: the rounds that find the certain units, and the numerators that follow.
ghost use Rattle.std.specs.Prelude.{◌≡◌, ◌*◌, ◌^◌, ◌<◌, ◌≤◌, length, Some, sum_by, nat_le};
ghost use Rattle.pivotal.specs.Certain.{CertainUnitsAreDetermined, ChancesAreProper};
ghost use Rattle.pivotal.specs.Register.{measure_of, measures, register};
ghost use Rattle.pivotal.specs.Setting.{Sized, Started};
ghost use Rattle.pivotal.specs.Splitting.{qualifies, split_of, round_of, denominator_by, numerator_by, CertainSplit};

use crate::draw::Draw;
use crate::table::{Table, UnitRecord};
use structures::Structure;
use terms::Fault;

// How many units are certain, and what the measures of the others come to.
#[derive(Clone, Copy)]
pub(crate) struct Split {
    pub certain: u32,
    pub rest: u32,
}

// What a round weighs measures by: the places that are left, and what the measures without one come to.
#[derive(Clone, Copy)]
pub(crate) struct Round {
    pub places: u32,
    pub rest: u32,
}

impl Split {
    // What the next round weighs by: each certain unit has taken a place.
    fn round(self, size: u32) -> Round
        requires { self.certain ≤ size }
        ensures { result ≡ round_of size self }
    {
        Round {
            places: size - self.certain,
            rest: self.rest,
        }
    }
}

impl Round {
    // Whether a measure times the places left is at least the rest. Told by a quotient, which is the same for
    // all units, so that the compiler takes it out of the pass over them.
    fn makes_certain(self, measure: u32) -> bool
        ensures { result ≡ nat_le self.rest (measure * self.places) }
    {
        if self.places == 0 {
            self.rest == 0
        } else {
            measure >= self.rest.div_ceil(self.places)
        }
    }

    // The denominator: the rest, or 1 where every unit is certain.
    fn denominator(self) -> u32
        ensures { result ≡ denominator_by self }
    {
        if self.rest == 0 { 1 } else { self.rest }
    }

    // The whole denominator for a certain unit, else the measure times the places left.
    fn numerator(self, measure: u32) -> u32
        ensures { result ≡ numerator_by self measure }
    {
        if self.makes_certain(measure) {
            self.denominator()
        } else {
            measure * self.places
        }
    }
}

impl Table {
    // Gives every unit the numerator that it starts with, and sets the denominator.
    fn start(&mut self, round: Round)
        ensures over { self.new.denominator ≡ Some (denominator_by round) }
        ensures started { Started self.old.records.items (λ i. numerator_by round (measures self.old.records.items i)) self.new.records.items }
    {
        for record in self.records.iter_mut() {
            let numerator = round.numerator(record.measure);
            record.start = numerator;
            record.present = numerator;
        }
        self.denominator = Some(round.denominator());
    }
}

// What the measures of these units come to.
fn total_measure(units: &[UnitRecord]) -> u32
    requires { sum_by measure_of units.now < 2 ^ 32 }
    ensures { result ≡ sum_by measure_of units.now }
{
    units.iter().map(|unit| unit.measure).sum()
}

impl<S> Draw<S> {
    // The split by the units that are certain in this round.
    fn split_by(&self, round: Round) -> Split
        ensures { result ≡ split_of (measures self.now.table.records.items) (qualifies (measures self.now.table.records.items) round.places round.rest) (length self.now.table.records.items) }
    {
        let mut split = Split {
            certain: 0,
            rest: 0,
        };
        for unit in self.table.records.iter() {
            if round.makes_certain(unit.measure) {
                split.certain += 1;
            } else {
                split.rest += unit.measure;
            }
        }
        split
    }

    // The split by the certain units. A certain unit takes a place and its measure away, which can
    // make others certain, so the rounds go on until one finds no more.
    fn certain_split(&self, size: u32) -> Split
        ensures { CertainSplit (length self.now.table.records.items) (measures self.now.table.records.items) size result }
    {
        let mut found = Split {
            certain: 0,
            rest: total_measure(&self.table.records),
        };
        loop {
            let next = self.split_by(found.round(size));
            if next.certain == found.certain {
                return next;
            }
            found = next;
        }
    }
}

impl<S: Structure> Draw<S> {
    // Sets the draw by how many units it is to draw: each unit starts with a chance that follows its measure.
    #[tactic(auto, using(crate::proofs::CertainUnits::certain_units_are_determined))]
    pub fn set_by_size(&mut self, size: u32) -> Result<(), Fault>
        ensures sized { Sized (S.Structure.meaning self.old.structure) (register self.old.table) size (register self.new.table) result }
        ensures same_structure { self.new.structure ≡ self.old.structure }
        ensures determined { CertainUnitsAreDetermined }
        ensures proper { ChancesAreProper }
    {
        if self.table.denominator.is_some() {
            return Err(Fault::AlreadySet);
        }
        let added = self.table.records.len();
        let units = self.structure.units() as usize;
        if added < units {
            return Err(Fault::UnitsMissing(added as u16));
        }
        if size == 0 || size as usize > added {
            return Err(Fault::SizeOutOfRange);
        }
        let split = self.certain_split(size);
        self.table.start(split.round(size));
        Ok(())
    }
}
