// What bounds every structure.
ghost use Rattle.std.specs.Prelude.{◌≡◌, ◌<◌, ◌≤◌, MatchResult};
ghost use Rattle.terms.specs.Faults.{tells};

use terms::Fault;

// The most units that a structure may have, and the most nodes of a tree.
const MAX_UNITS: usize = 1024;

// So many units or nodes, which a structure can have or which are refused.
pub(crate) fn within_limit(entries: usize) -> Result<u16, Fault>
    ensures { MatchResult result (λ taken. (entries ≤ 1024) × (taken ≡ entries)) (λ fault. (1024 < entries) × (tells fault ≡ (17, 0))) }
{
    if entries > MAX_UNITS {
        return Err(Fault::StructureTooLarge);
    }
    Ok(entries as u16)
}
