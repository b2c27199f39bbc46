// Random words and the numbers drawn from them.
#![tactic(auto)]

mod drawing;
mod park_miller;
mod source;
mod tape;
#[cfg(test)]
mod tests;

pub use drawing::draw_below;
pub use park_miller::ParkMiller;
pub use source::WordSource;
pub use tape::Tape;
