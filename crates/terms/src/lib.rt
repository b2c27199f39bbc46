// The terms that every layer shares: numbers of four kinds, which do not mix, and faults.
#![tactic(auto)]

mod fault;
mod numbers;

pub use fault::Fault;
pub use numbers::{NodeNo, RangeNo, StratumNo, UnitNo};
