// What the structures answer on small and on the largest cases. A refusal is compared by what it tells,
// since its number and its place are promised, and not its case.
mod strata;
mod tree;

use crate::*;
use std::process::Abort;
use std::test::Fail;
use terms::{Fault, RangeNo, UnitNo};

fn check_choice<S: Structure>(
    rt: &impl Abort,
    structure: &S,
    marks: &[u8],
    wanted: Option<(u16, u16)>,
) {
    let chosen = structure.choice(marks);
    assert_eq!(rt; chosen.map(|(first, second)| (first.0, second.0)), wanted);
}

// Which of the first N units the range holds; no structure has more than 1,024.
fn held<S: Audited, const N: usize>(structure: &S, range: u32) -> [bool; N] {
    let mut held = [false; N];
    for (is_held, unit) in held.iter_mut().zip(0..1024u16) {
        *is_held = structure.holds(RangeNo(range), UnitNo(unit));
    }
    held
}

// The choice among three units, whatever else the structure keeps.
fn check_three<S: Structure>(rt: &impl Abort, three: &S) {
    check_choice(rt, three, &[], None);
    check_choice(rt, three, &[0, 7], None);
    check_choice(rt, three, &[1, 1], Some((0, 1)));
    check_choice(rt, three, &[0, 255, 2, 1], Some((1, 2)));
    check_choice(rt, three, &[9, 0, 0, 1, 1], None);
    check_choice(rt, three, &[1, 1, 1], Some((0, 1)));
}

#[test]
fn sizes(rt: HostRuntime) -> Result<(), Fail> {
    for n in [0, 1, 2, 1024] {
        let line = Line::new(n)?;
        assert_eq!(rt; line.units() as u32, n);
        assert_eq!(rt; line.ranges(), n);
        let loose = Loose::new(n)?;
        assert_eq!(rt; loose.units() as u32, n);
        assert_eq!(rt; loose.ranges(), 0);
    }
    assert_eq!(rt; Line::new(1025).map_err(Fault::tells).err(), Some((17, 0)));
    assert_eq!(rt; Loose::new(1025).map_err(Fault::tells).err(), Some((17, 0)));
    Ok(())
}

#[test]
fn choices(rt: HostRuntime) -> Result<(), Fail> {
    check_choice(&rt, &Line::new(0)?, &[1, 1], None);
    check_choice(&rt, &Line::new(1)?, &[1, 1], None);
    check_three(&rt, &Line::new(3)?);
    check_three(&rt, &Loose::new(3)?);
    let mut marks = [0; 1024];
    marks[5] = 1;
    marks[1023] = 1;
    check_choice(&rt, &Line::new(1024)?, &marks, Some((5, 1023)));
    Ok(())
}

#[test]
fn ranges(rt: HostRuntime) -> Result<(), Fail> {
    let line = Line::new(3)?;
    assert_eq!(rt; held(&line, 0), [true, false]);
    assert!(rt; line.holds(RangeNo(2), UnitNo(2)));
    assert!(rt; !line.holds(RangeNo(3), UnitNo(0)));
    assert!(rt; !line.holds(RangeNo(3), UnitNo(3)));
    let loose = Loose::new(3)?;
    assert!(rt; !loose.holds(RangeNo(0), UnitNo(0)));
    Ok(())
}
