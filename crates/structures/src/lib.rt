// Structures over a register: which units are paired, and whose shares are kept.
#![tactic(auto)]

mod copying;
mod limits;
mod line;
mod loose;
mod lowest;
mod lowest_first;
mod strata;
mod structure;
#[cfg(test)]
mod tests;
mod tree;

pub use line::Line;
pub use loose::Loose;
pub use strata::Strata;
pub use structure::{Audited, Structure};
pub use tree::Tree;
