// The register of a small canal: what stands along it from the summit down, and what a full repair
// of each would cost.

pub(crate) const NAME: &str = "Hollin Canal";

pub(crate) struct Gate {
    pub(crate) name: &'static str,
    pub(crate) cost: u32,
}

pub(crate) static GATES: [Gate; 12] = [
    Gate {
        name: "Summit lock, upper gate",
        cost: 120_000,
    },
    Gate {
        name: "Summit lock, lower gate",
        cost: 135_000,
    },
    Gate {
        name: "Mill sluice",
        cost: 48_000,
    },
    Gate {
        name: "Alder culvert",
        cost: 22_000,
    },
    Gate {
        name: "Alder paddle",
        cost: 9_000,
    },
    Gate {
        name: "Bypass sluice",
        cost: 61_000,
    },
    Gate {
        name: "Turnover culvert",
        cost: 30_000,
    },
    Gate {
        name: "Basin stop gate",
        cost: 410_000,
    },
    Gate {
        name: "Basin paddle",
        cost: 15_000,
    },
    Gate {
        name: "River lock, upper gate",
        cost: 150_000,
    },
    Gate {
        name: "River lock, lower gate",
        cost: 165_000,
    },
    Gate {
        name: "Tail sluice",
        cost: 35_000,
    },
];

// How many of them are inspected this year.
pub(crate) const SIZE: u32 = 5;

// Published before the draw.
pub(crate) const SEED: u32 = 2027;
