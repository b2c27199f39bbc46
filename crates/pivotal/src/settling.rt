// Settling: two open units, one of which is open no longer afterwards.
ghost use Rattle.std.specs.Prelude.{◌≡◌, ◌≤◌};
ghost use Rattle.pivotal.specs.Settling.{settling, outcome};

// `bound` numbers are equally likely: those below `firsts` settle the two units the first way, and
// the others the second way. A way is what the first unit and the second have afterwards.
#[derive(Clone, Copy)]
pub(crate) struct Settling {
    pub bound: u64,
    pub firsts: u64,
    pub first: (u32, u32),
    pub second: (u32, u32),
}

impl Settling {
    // What the two units have after this number.
    pub(crate) fn outcome(&self, number: u32) -> (u32, u32)
        ensures { result ≡ outcome self.now number }
    {
        if (number as u64) < self.firsts {
            self.first
        } else {
            self.second
        }
    }
}

// How two units with the numerators `a` and `b` settle.
pub(crate) fn settle(denominator: u32, a: u32, b: u32) -> Settling
    requires a_within { a ≤ denominator }
    requires b_within { b ≤ denominator }
    ensures { result ≡ settling denominator a b }
{
    let whole = denominator as u64;
    let sum = a as u64 + b as u64;
    if sum < whole {
        let all = sum as u32;
        return Settling {
            bound: sum,
            firsts: a as u64,
            first: (all, 0),
            second: (0, all),
        };
    }
    let left = (sum - whole) as u32;
    Settling {
        bound: 2 * whole - sum,
        firsts: (denominator - b) as u64,
        first: (denominator, left),
        second: (left, denominator),
    }
}
