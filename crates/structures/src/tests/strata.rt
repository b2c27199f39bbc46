// Strata over a line, and over other strata.
use super::{check_choice, held};
use crate::*;
use std::alloc::Global;
use std::process::Abort;
use std::test::Fail;
use terms::{Fault, RangeNo, StratumNo, UnitNo};

fn filled<B: Audited + Drop>(
    heap: Global,
    below: B,
    count: u32,
    strata: &[StratumNo],
) -> Result<Strata<B>, Fail> {
    let mut made = Strata::new(heap, below);
    made.fill(count, strata)?;
    Ok(made)
}

// Two strata over a line of three units: unit 1, and the units 0 and 2.
fn two_strata(heap: Global) -> Result<Strata<Line>, Fail> {
    let strata = [StratumNo(1), StratumNo(0), StratumNo(1)];
    filled(heap, Line::new(3)?, 2, &strata)
}

#[test]
fn one_stratum_until_filled(rt: HostRuntime) -> Result<(), Fail> {
    let strata = Strata::new(rt.alloc(), Line::new(3)?);
    assert_eq!(rt; strata.units(), 3);
    assert_eq!(rt; strata.ranges(), 4);
    assert_eq!(rt; held(&strata, 0), [true, true, true, false]);
    assert_eq!(rt; held(&strata, 2), [true, true, false, false]);
    assert_eq!(rt; held(&strata, 4), [false, false, false, false]);
    super::check_three(&rt, &strata);
    Ok(())
}

#[test]
fn ranges_of_two_strata(rt: HostRuntime) -> Result<(), Fail> {
    let strata = two_strata(rt.alloc())?;
    assert_eq!(rt; strata.ranges(), 8);
    assert_eq!(rt; held(&strata, 0), [false, true, false, false]);
    assert_eq!(rt; held(&strata, 1), [false, false, false, false]);
    assert_eq!(rt; held(&strata, 2), [false, true, false, false]);
    assert_eq!(rt; held(&strata, 3), [false, true, false, false]);
    assert_eq!(rt; held(&strata, 4), [true, false, true, false]);
    assert_eq!(rt; held(&strata, 5), [true, false, false, false]);
    assert_eq!(rt; held(&strata, 6), [true, false, false, false]);
    assert_eq!(rt; held(&strata, 7), [true, false, true, false]);
    assert_eq!(rt; held(&strata, 8), [false, false, false, false]);
    Ok(())
}

#[test]
fn choices_within_a_stratum_first(rt: HostRuntime) -> Result<(), Fail> {
    let line = Line::new(5)?;
    let numbers = [
        StratumNo(1),
        StratumNo(0),
        StratumNo(1),
        StratumNo(0),
        StratumNo(1),
    ];
    let strata = filled(rt.alloc(), line, 2, &numbers)?;
    check_choice(&rt, &strata, &[1, 1, 1, 1, 1], Some((1, 3)));
    check_choice(&rt, &strata, &[9, 255, 7], Some((0, 2)));
    check_choice(&rt, &strata, &[1, 1], Some((0, 1)));
    check_choice(&rt, &strata, &[0, 0, 0, 2, 2, 2, 2], Some((3, 4)));
    check_choice(&rt, &strata, &[0, 0, 0, 0, 1, 1], None);
    Ok(())
}

#[test]
fn sixty_four_strata(rt: HostRuntime) -> Result<(), Fail> {
    let numbers = [StratumNo(63), StratumNo(0), StratumNo(63)];
    let strata = filled(rt.alloc(), Line::new(3)?, 64, &numbers)?;
    assert_eq!(rt; strata.ranges(), 256);
    assert_eq!(rt; held(&strata, 252), [true, false, true, false]);
    check_choice(&rt, &strata, &[1, 1, 1], Some((0, 2)));
    Ok(())
}

// Over units without order there is a range for each stratum and no other.
#[test]
fn strata_of_1024_units(rt: HostRuntime) -> Result<(), Fail> {
    let numbers: Vec<StratumNo> = (0..1024u16)
        .map(|i| StratumNo((i % 64) as u8))
        .collect(rt.alloc())?;
    let strata = filled(rt.alloc(), Loose::new(1024)?, 64, &numbers)?;
    assert_eq!(rt; strata.ranges(), 64);
    assert!(rt; strata.holds(RangeNo(63), UnitNo(1023)));
    assert!(rt; !strata.holds(RangeNo(62), UnitNo(1023)));
    check_choice(&rt, &strata, &[1; 1024], Some((0, 64)));
    Ok(())
}

#[test]
fn strata_over_strata(rt: HostRuntime) -> Result<(), Fail> {
    let (s, t) = (StratumNo(0), StratumNo(1));
    let halves = filled(rt.alloc(), Line::new(4)?, 2, &[s, s, t, t])?;
    let strata = filled(rt.alloc(), halves, 2, &[s, t, s, t])?;
    assert_eq!(rt; strata.ranges(), 22);
    assert_eq!(rt; held(&strata, 11), [false, true, false, true]);
    assert_eq!(rt; held(&strata, 17), [false, false, false, true]);
    check_choice(&rt, &strata, &[1, 1, 1, 1], Some((0, 2)));
    check_choice(&rt, &strata, &[0, 1, 1, 1], Some((1, 3)));
    check_choice(&rt, &strata, &[0, 0, 1, 1], Some((2, 3)));
    check_choice(&rt, &strata, &[0, 1, 1, 0], Some((1, 2)));
    Ok(())
}

#[test]
fn refused_fillings_change_nothing(rt: HostRuntime) -> Result<(), Fail> {
    let mut strata = two_strata(rt.alloc())?;
    let high = [StratumNo(0), StratumNo(64), StratumNo(65)];
    assert_eq!(rt; strata.fill(0, &high).map_err(Fault::tells), Err((20, 0)));
    assert_eq!(rt; strata.fill(65, &high).map_err(Fault::tells), Err((20, 0)));
    assert_eq!(rt;
        strata.fill(1, &high[1..3]).map_err(Fault::tells),
        Err((20, 0))
    );
    assert_eq!(rt; strata.fill(64, &high).map_err(Fault::tells), Err((21, 1)));
    assert_eq!(rt; strata.ranges(), 8);
    assert_eq!(rt; held(&strata, 4), [true, false, true, false]);
    Ok(())
}

// A layer over the greatest number of ranges has none, and cannot be filled.
fn check_unfillable<B: Audited + Drop>(rt: &impl Abort, heap: Global, below: B) {
    assert_eq!(rt; below.ranges(), 4_294_967_295);
    let mut strata = Strata::new(heap, below);
    assert_eq!(rt; strata.ranges(), 0);
    assert!(rt; !strata.holds(RangeNo(0), UnitNo(0)));
    check_choice(rt, &strata, &[1, 1], Some((0, 1)));
    assert_eq!(rt;
        strata.fill(1, &[StratumNo(1); 28]).map_err(Fault::tells),
        Err((21, 0))
    );
    assert_eq!(rt;
        strata.fill(1, &[StratumNo(0); 28]).map_err(Fault::tells),
        Err((22, 0))
    );
}

// Two layers more, with every unit in stratum 0.
fn two_more<B: Audited + Drop>(
    heap: Global,
    below: B,
    first: u32,
    second: u32,
) -> Result<Strata<Strata<B>>, Fail> {
    let numbers = [StratumNo(0); 28];
    let one = filled(heap, below, first, &numbers)?;
    filled(heap, one, second, &numbers)
}

// The five counts are found by hand, so that the layers over 28 ranges come to the greatest number.
#[test]
fn too_many_ranges(rt: HostRuntime) -> Result<(), Fail> {
    let heap = rt.alloc();
    let one = filled(heap, Line::new(28)?, 45, &[StratumNo(0); 28])?;
    let three = two_more(heap, one, 60, 63)?;
    check_unfillable(&rt, heap, two_more(heap, three, 58, 15)?);
    Ok(())
}
