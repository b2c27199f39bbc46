// What a node holds of the marked units that have come to it so far.
ghost use Rattle.std.specs.Prelude.{◌≡◌, ℕ, ◌<◌, false};
ghost use Rattle.structures.specs.Held.{Keeps, joined};
ghost use Rattle.structures.specs.Meaning.{Units};

use terms::UnitNo;

// No more than two are kept, the lowest-numbered ones, the lower first. Two states have units and
// the third has none, so that it is no `Option`.
#[derive(Clone, Copy)]
pub(crate) enum Held {
    Nothing,
    One(UnitNo),
    Two(UnitNo, UnitNo),
}

impl Held {
    // What the node holds once this unit has come to it too.
    pub(crate) fn with(self, unit: UnitNo) -> Held
        ensures { (J : Units) (n : ℕ) → Keeps J n self → unit.0 < n → J unit.0 ≡ false → Keeps (joined unit.0 J) n result }
    {
        match self {
            Held::Nothing => Held::One(unit),
            Held::One(only) if unit < only => Held::Two(unit, only),
            Held::One(only) => Held::Two(only, unit),
            Held::Two(first, _) if unit < first => Held::Two(unit, first),
            Held::Two(first, second) if unit < second => Held::Two(first, unit),
            Held::Two(first, second) => Held::Two(first, second),
        }
    }
}
