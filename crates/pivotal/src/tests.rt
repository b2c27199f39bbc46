// Worked examples and edges, each run after it is proved. A refusal is compared by what it tells, since
// its number and its place are promised, and not its case.
use crate::Draw;
use crate::settling::settle;
use crate::table::{Table, UnitRecord};
use std::alloc::Global;
use std::process::Abort;
use std::test::Fail;
use structures::Line;
use terms::{Fault, UnitNo};
use words::Tape;

// A draw over a line, with a unit for each measure, not yet set.
fn added(heap: Global, measures: &[u32]) -> Result<Draw<Line>, Fail> {
    let line = Line::new(u32::try_from(measures.len())?)?;
    let mut draw = Draw::new(heap, line);
    for measure in measures {
        draw.add(*measure)?;
    }
    Ok(draw)
}

// The same, set for a size.
fn set(heap: Global, measures: &[u32], size: u32) -> Result<Draw<Line>, Fail> {
    let mut draw = added(heap, measures)?;
    draw.set_by_size(size)?;
    Ok(draw)
}

fn check_presents<S>(rt: &impl Abort, draw: &Draw<S>, wanted: &[u32]) -> Result<(), Fail> {
    for (i, present) in wanted.iter().enumerate() {
        assert_eq!(rt; draw.unit(UnitNo(u16::try_from(i)?))?.present, *present);
    }
    Ok(())
}

#[test]
fn certain_units(rt: HostRuntime) -> Result<(), Fail> {
    let heap = rt.alloc();
    check_presents(
        &rt,
        &set(heap, &[10, 20, 30, 40, 300], 3)?,
        &[20, 40, 60, 80, 100],
    )?;
    check_presents(&rt, &set(heap, &[1, 2, 10, 100], 3)?, &[1, 2, 3, 3])?;
    check_presents(&rt, &set(heap, &[1, 1, 2], 2)?, &[1, 1, 2])?;
    check_presents(&rt, &set(heap, &[5, 5, 5], 3)?, &[1, 1, 1])
}

#[test]
fn settlings(rt: HostRuntime) {
    let above = settle(100, 40, 80);
    assert_eq!(rt; above.bound, 80);
    assert_eq!(rt; above.outcome(19), (100, 20));
    assert_eq!(rt; above.outcome(20), (20, 100));
    let below = settle(100, 20, 60);
    assert_eq!(rt; below.bound, 80);
    assert_eq!(rt; below.outcome(19), (80, 0));
    assert_eq!(rt; below.outcome(20), (0, 80));
}

// What is left open alone settles against what it lacks: the only unit here has 30 of 100.
fn left_alone(heap: Global) -> Result<Draw<Line>, Fail> {
    let line = Line::new(1)?;
    let unit = UnitRecord {
        measure: 30,
        start: 30,
        present: 30,
    };
    let table = Table {
        records: vec![in heap; unit]?,
        denominator: Some(100),
    };
    Ok(Draw {
        structure: line,
        table,
    })
}

#[test]
fn residue(rt: HostRuntime) -> Result<(), Fail> {
    for (word, present) in [(29, 100), (30, 0)] {
        let mut draw = left_alone(rt.alloc())?;
        let mut words = Tape::new(rt.alloc());
        words.fill(100, &[word])?;
        let step = draw.step(&mut words)?;
        assert_eq!(rt; step.second, None);
        assert_eq!(rt; step.bound, 100);
        check_presents(&rt, &draw, &[present])?;
    }
    Ok(())
}

#[test]
fn sizes(rt: HostRuntime) -> Result<(), Fail> {
    let measures = [3, 1, 2];
    for size in [1, 3] {
        added(rt.alloc(), &measures)?.set_by_size(size)?;
    }
    for size in [0, 4] {
        let mut draw = added(rt.alloc(), &measures)?;
        assert_eq!(rt; draw.set_by_size(size).map_err(Fault::tells), Err((5, 0)));
    }
    let mut empty = added(rt.alloc(), &[])?;
    assert_eq!(rt; empty.set_by_size(0).map_err(Fault::tells), Err((5, 0)));
    assert_eq!(rt; empty.set_by_size(1).map_err(Fault::tells), Err((5, 0)));
    check_presents(&rt, &set(rt.alloc(), &[7], 1)?, &[1])
}

#[test]
fn measures(rt: HostRuntime) -> Result<(), Fail> {
    let mut draw = Draw::new(rt.alloc(), Line::new(2)?);
    assert_eq!(rt; draw.add(0).map_err(Fault::tells), Err((3, 0)));
    assert_eq!(rt; draw.add(1_000_000)?.0, 0);
    assert_eq!(rt; draw.add(1_000_001).map_err(Fault::tells), Err((3, 1)));
    assert_eq!(rt; draw.set_by_size(1).map_err(Fault::tells), Err((4, 1)));
    assert_eq!(rt; draw.add(1)?.0, 1);
    assert_eq!(rt; draw.add(0).map_err(Fault::tells), Err((2, 0)));
    draw.set_by_size(1)?;
    assert_eq!(rt; draw.add(0).map_err(Fault::tells), Err((1, 0)));
    assert_eq!(rt; draw.set_by_size(0).map_err(Fault::tells), Err((1, 0)));
    Ok(())
}

#[test]
fn units(rt: HostRuntime) -> Result<(), Fail> {
    let mut draw = added(rt.alloc(), &[1, 1, 2])?;
    assert_eq!(rt; draw.unit(UnitNo(3)).map_err(Fault::tells), Err((10, 0)));
    draw.set_by_size(2)?;
    assert_eq!(rt; draw.unit(UnitNo(3)).map_err(Fault::tells), Err((13, 0)));
    assert_eq!(rt; draw.unit(UnitNo(2))?.measure, 2);
    Ok(())
}

#[test]
fn rolls(rt: HostRuntime) -> Result<(), Fail> {
    let mut list = [9; 3];
    let mut draw = set(rt.alloc(), &[1, 1, 2], 2)?;
    assert_eq!(rt; draw.roll(&mut list).map_err(Fault::tells), Err((14, 0)));
    let mut words = Tape::new(rt.alloc());
    words.fill(2, &[1])?;
    draw.step(&mut words)?;
    assert_eq!(rt; draw.roll(&mut [0]).map_err(Fault::tells), Err((15, 2)));
    assert_eq!(rt; draw.roll(&mut list)?, 2);
    assert_eq!(rt; list, [1, 2, 9]);
    Ok(())
}

#[test]
fn words_that_run_out(rt: HostRuntime) -> Result<(), Fail> {
    let mut draw = set(rt.alloc(), &[10, 20, 30, 40, 300], 3)?;
    let mut words = Tape::new(rt.alloc());
    words.fill(60, &[40])?;
    let step = draw.step(&mut words)?;
    assert_eq!(rt; (step.bound, step.number), (60, 40));
    check_presents(&rt, &draw, &[0, 60, 60, 80, 100])?;
    // 60 and 60 over 100 have the bound 80, above the span of 60.
    assert_eq!(rt; draw.step(&mut words).err().map(Fault::tells), Some((7, 0)));
    words.fill(81, &[80])?;
    // By the calls that tell the number or the place alone.
    let ended = draw.step(&mut words).err();
    assert_eq!(rt; ended.map(|fault| fault.number()), Some(8));
    assert_eq!(rt; ended.map(|fault| fault.place()), Some(1));
    check_presents(&rt, &draw, &[0, 60, 60, 80, 100])
}

#[test]
fn the_largest_register(rt: HostRuntime) -> Result<(), Fail> {
    let mut draw = Draw::new(rt.alloc(), Line::new(1024)?);
    for _ in 0..1024u16 {
        draw.add(1_000_000)?;
    }
    draw.set_by_size(1023)?;
    assert_eq!(rt; draw.unit(UnitNo(1023))?.start, 1_023_000_000);
    Ok(())
}
