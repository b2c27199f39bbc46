// Numbers of four kinds, all counted from 0. Each kind is a type of its own, so that the number of
// a reach can never be used to look up a gate.

// A unit of the register: a gate, paddle, sluice or culvert.
#[derive(Clone, Copy, PartialEq, Eq, PartialOrd, Ord, Debug)]
pub struct UnitNo(pub u16);

// A reach of the drainage tree.
#[derive(Clone, Copy, PartialEq, Eq, PartialOrd, Ord, Debug)]
pub struct NodeNo(pub u16);

// A stratum that the register is divided into.
#[derive(Clone, Copy, PartialEq, Eq, PartialOrd, Ord, Debug)]
pub struct StratumNo(pub u8);

// A range: a set of units whose share is kept.
#[derive(Clone, Copy, PartialEq, Eq, PartialOrd, Ord, Debug)]
pub struct RangeNo(pub u32);
