// Pivotal draws from a register of units with unequal chances.
#![tactic(auto)]

mod draw;
mod questions;
mod set_units;
mod setting;
mod settling;
mod stepping;
mod table;
#[cfg(test)]
mod tests;

pub use draw::Draw;
pub use stepping::StepRecord;
pub use table::UnitRecord;
