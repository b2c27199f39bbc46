// The lists that a structure keeps of its caller's.
ghost use Rattle.std.specs.Prelude.{◌≡◌, ◌≤◌, length, MatchResult};
ghost use Rattle.terms.specs.Faults.{tells};

use std::alloc::Global;
use terms::Fault;

// A copy of the list. Not by `Vec::from_slice`, which does not promise that want of memory is told only
// where there is something to copy.
pub(crate) fn copied<T: Copy>(heap: Global, entries: &[T]) -> Result<Vec<T>, Fault>
    ensures { MatchResult result (λ list. list.items ≡ entries.now) (λ fault. (1 ≤ length entries.now) × (tells fault ≡ (99, 0))) }
{
    let mut list = Vec::new(heap);
    list.extend_from_slice(entries)?;
    Ok(list)
}
