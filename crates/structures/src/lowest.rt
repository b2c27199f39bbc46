// The choice that several structures share.
ghost use Rattle.std.specs.Prelude.{◌≡◌, ◌<◌, not, length, ◌==◌, slice_index};
ghost use Rattle.structures.specs.Lowest.{two_lowest};
ghost use Rattle.structures.specs.Marks.{marked, named};

use terms::UnitNo;

// The two lowest-numbered marked units among the first `units`, the lower first.
pub(crate) fn two_lowest(units: u16, marks: &[u8]) -> Option<(UnitNo, UnitNo)>
    ensures { named result ≡ two_lowest (marked units marks.now) units }
{
    // Units behind the end of a short list are not marked, so the pass ends with the list.
    let end = (units as usize).min(marks.len()) as u16;
    let mut marked = (0..end).filter(|unit| is_marked(marks, *unit as usize));
    let lower = marked.next()?;
    let higher = marked.next()?;
    Some((UnitNo(lower), UnitNo(higher)))
}

// Whether the byte of this unit is other than 0.
fn is_marked(marks: &[u8], unit: usize) -> bool
    requires { unit < length marks.now }
    ensures { result ≡ not (slice_index marks.now unit == 0) }
{
    marks[unit] != 0
}
