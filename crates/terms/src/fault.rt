// Why a call was refused. What each case tells, its number and its place, is one definition in
// specs/Faults.antt; promises about refusals are made through it.
ghost use Rattle.std.specs.Prelude.{◌≡◌, ◌++◌, Some, codes, decimal};
ghost use Rattle.terms.specs.Faults.{tells};

use crate::numbers::{NodeNo, UnitNo};
use std::alloc::{AllocError, AllocFailed};
use std::error::Error;
use std::fmt;

#[derive(Clone, Copy, PartialEq, Eq, Debug)]
pub enum Fault {
    // The draw is set already.
    AlreadySet,
    // The register has as many units as the structure.
    RegisterFull,
    // The measure for the next unit, named here, is 0 or above 1,000,000.
    MeasureOutOfRange(UnitNo),
    // The structure has more units than the register, which has this many.
    UnitsMissing(u16),
    // The size is 0 or above the number of units.
    SizeOutOfRange,
    // The denominator is not from 1 to 1,000,000,000, or the measure of this unit, the first such,
    // exceeds it.
    DenominatorOutOfRange(Option<UnitNo>),
    // The bound is 0 or above the span of the words.
    BoundOutOfRange,
    // No word is to come, after this many were read in this drawing.
    WordsEnded(u8),
    // All 64 words that a drawing may read were rejected.
    WordsRejected,
    // The draw is not set.
    NotSet,
    // No unit is open.
    NothingOpen,
    // The limit of a run is above 1,024.
    LimitTooHigh,
    // There is no unit, or no range, of this number.
    NumberTooHigh,
    // A unit is still open: the lowest-numbered one.
    StillOpen(UnitNo),
    // The caller's list is too short: the length that it needs.
    ListTooShort(u16),
    // The draw was set by rates, and the question is about a size.
    SetByRates,
    // More than 1,024 units or nodes.
    StructureTooLarge,
    // The parent of this node breaks the rule for parents.
    ParentOutOfOrder(NodeNo),
    // The home of this unit is no node.
    HomeTooHigh(UnitNo),
    // The number of strata is not from 1 to 64, or the list is not one entry for each unit.
    StrataOutOfRange,
    // The stratum of this unit is not below the number of strata.
    StratumTooHigh(UnitNo),
    // More than 4,294,967,295 ranges.
    TooManyRanges,
    // The span is not from 1 to 4,294,967,296.
    SpanOutOfRange,
    // The word at this position of the list, the first such, is not below the span.
    WordOutOfRange(usize),
    // The seed is not from 1 to 2,147,483,646.
    SeedOutOfRange,
    // Memory was asked for and there is none.
    NoMemory,
}

impl Fault {
    // The number of the refusal and its place, which is 0 where a case names none.
    pub fn tells(self) -> (u8, u64)
        ensures { result ≡ tells self }
    {
        match self {
            Fault::AlreadySet => (1, 0),
            Fault::RegisterFull => (2, 0),
            Fault::MeasureOutOfRange(unit) => (3, unit.0 as u64),
            Fault::UnitsMissing(added) => (4, added as u64),
            Fault::SizeOutOfRange => (5, 0),
            Fault::DenominatorOutOfRange(None) => (6, 0),
            Fault::DenominatorOutOfRange(Some(unit)) => (6, unit.0 as u64),
            Fault::BoundOutOfRange => (7, 0),
            Fault::WordsEnded(read) => (8, read as u64),
            Fault::WordsRejected => (9, 64),
            Fault::NotSet => (10, 0),
            Fault::NothingOpen => (11, 0),
            Fault::LimitTooHigh => (12, 0),
            Fault::NumberTooHigh => (13, 0),
            Fault::StillOpen(unit) => (14, unit.0 as u64),
            Fault::ListTooShort(needed) => (15, needed as u64),
            Fault::SetByRates => (16, 0),
            Fault::StructureTooLarge => (17, 0),
            Fault::ParentOutOfOrder(node) => (18, node.0 as u64),
            Fault::HomeTooHigh(unit) => (19, unit.0 as u64),
            Fault::StrataOutOfRange => (20, 0),
            Fault::StratumTooHigh(unit) => (21, unit.0 as u64),
            Fault::TooManyRanges => (22, 0),
            Fault::SpanOutOfRange => (23, 0),
            Fault::WordOutOfRange(position) => (23, position as u64),
            Fault::SeedOutOfRange => (24, 0),
            Fault::NoMemory => (99, 0),
        }
    }

    // The number alone.
    pub fn number(&self) -> u8
        ensures { result ≡ (tells self.now).0 }
    {
        self.tells().0
    }

    // The place alone.
    pub fn place(&self) -> u64
        ensures { result ≡ (tells self.now).1 }
    {
        self.tells().1
    }
}

// As a keeper reads it in a log.
impl fmt::Display for Fault {
    ghost output = { λ fault. Some (codes "refusal " ++ (decimal (tells fault).0 ++ (codes " at " ++ decimal (tells fault).1))) };

    fn fmt<W: fmt::Write>(&self, f: &mut fmt::Formatter<W>) -> fmt::Result {
        let (number, place) = self.tells();
        write!(f, "refusal {number} at {place}")
    }
}

impl Error for Fault {}

impl From<AllocError> for Fault {
    ghost from_gives = { λ _ r. tells r ≡ (99, 0) };

    fn from(_e: AllocError) -> Fault {
        Fault::NoMemory
    }
}

// The library has two errors for want of memory, and `?` wants an impl for each.
impl<T: Drop> From<AllocFailed<T>> for Fault {
    ghost from_gives = { λ _ r. tells r ≡ (99, 0) };

    fn from(_e: AllocFailed<T>) -> Fault {
        Fault::NoMemory
    }
}
