// The Park-Miller generator: words from a seed.
ghost use Rattle.words.specs.States.{InRange};

use crate::source::WordSource;
use terms::Fault;

// Each step multiplies the state by this number.
const MULTIPLIER: u64 = 16_807;
// A prime, so no state ever comes to 0.
const MODULUS: u64 = 2_147_483_647;

const MAX_STATE: u32 = 2_147_483_646;

#[derive(Drop)]
pub struct ParkMiller {
    state: u32,
    ghost ok: { InRange state },
}

impl ParkMiller {
    ghost use Rattle.words.specs.ParkMiller.{Seeded};

    pub fn new(seed: u32) -> Result<ParkMiller, Fault>
        ensures { Seeded seed result }
    {
        if seed == 0 || seed > MAX_STATE {
            return Err(Fault::SeedOutOfRange);
        }
        Ok(ParkMiller { state: seed })
    }
}

impl WordSource for ParkMiller {
    ghost use Rattle.words.specs.ParkMiller.{park_miller_source};

    ghost source = { park_miller_source };

    // States are from 1 on and words from 0, so there are as many words as states.
    fn span(&self) -> u64 {
        MAX_STATE as u64
    }

    #[tactic(auto, using(crate::proofs::Generating::step_first))]
    fn next_word(&mut self) -> Option<u32> {
        self.state = (self.state as u64 * MULTIPLIER % MODULUS) as u32;
        Some(self.state - 1)
    }
}
