// Drainage trees of several shapes.
use super::{check_choice, held};
use crate::*;
use std::alloc::Global;
use std::test::Fail;
use terms::{Fault, NodeNo, RangeNo, UnitNo};

fn filled(heap: Global, parents: &[NodeNo], homes: &[NodeNo]) -> Result<Tree, Fail> {
    let mut tree = Tree::new(heap);
    tree.fill(parents, homes)?;
    Ok(tree)
}

// Reach 1 drains into the river, node 0, and reach 2 is a bypass of reach 1. Unit 0 stands at the
// bypass, unit 1 at reach 1, unit 2 at the river, unit 3 at the bypass again.
fn bypass(heap: Global) -> Result<Tree, Fail> {
    let parents = [NodeNo(0), NodeNo(0), NodeNo(1)];
    let homes = [NodeNo(2), NodeNo(1), NodeNo(0), NodeNo(2)];
    filled(heap, &parents, &homes)
}

#[test]
fn empty_until_filled(rt: HostRuntime) -> Result<(), Fail> {
    let mut tree = Tree::new(rt.alloc());
    assert_eq!(rt;
        tree.fill(&[], &[NodeNo(0)]).map_err(Fault::tells),
        Err((19, 0))
    );
    tree.fill(&[], &[])?;
    assert_eq!(rt; tree.units(), 0);
    assert_eq!(rt; tree.ranges(), 0);
    assert!(rt; !tree.holds(RangeNo(0), UnitNo(0)));
    check_choice(&rt, &tree, &[1, 1], None);
    Ok(())
}

#[test]
fn ranges_at_a_bypass(rt: HostRuntime) -> Result<(), Fail> {
    let tree = bypass(rt.alloc())?;
    assert_eq!(rt; tree.ranges(), 3);
    assert_eq!(rt; held(&tree, 0), [true, true, true, true, false]);
    assert_eq!(rt; held(&tree, 1), [true, true, false, true, false]);
    assert_eq!(rt; held(&tree, 2), [true, false, false, true, false]);
    assert_eq!(rt; held(&tree, 3), [false; 5]);
    Ok(())
}

#[test]
fn choices_at_a_bypass(rt: HostRuntime) -> Result<(), Fail> {
    let tree = bypass(rt.alloc())?;
    check_choice(&rt, &tree, &[1, 1, 1, 1], Some((0, 3)));
    check_choice(&rt, &tree, &[7, 255, 2], Some((0, 1)));
    check_choice(&rt, &tree, &[0, 1, 1, 1, 9], Some((1, 3)));
    check_choice(&rt, &tree, &[1, 0, 1], Some((0, 2)));
    // A unit at the bypass is alone, whatever ways the water takes.
    check_choice(&rt, &tree, &[1], None);
    check_choice(&rt, &tree, &[0, 0, 0, 1, 1, 1], None);
    Ok(())
}

#[test]
fn chain(rt: HostRuntime) -> Result<(), Fail> {
    let parents: Vec<NodeNo> = (0..1024u16)
        .map(|i| NodeNo(i.saturating_sub(1)))
        .collect(rt.alloc())?;
    let homes: Vec<NodeNo> = (0..1024u16).rev().map(NodeNo).collect(rt.alloc())?;
    let tree = filled(rt.alloc(), &parents, &homes)?;
    check_choice(&rt, &tree, &[1; 1024], Some((0, 1)));
    let mut ends = [0; 1024];
    ends[0] = 1;
    ends[1023] = 1;
    check_choice(&rt, &tree, &ends, Some((0, 1023)));
    assert!(rt; tree.holds(RangeNo(0), UnitNo(0)));
    assert!(rt; tree.holds(RangeNo(1023), UnitNo(0)));
    assert!(rt; !tree.holds(RangeNo(1), UnitNo(1023)));
    Ok(())
}

#[test]
fn star(rt: HostRuntime) -> Result<(), Fail> {
    let parents = [NodeNo(0); 1024];
    let homes: Vec<NodeNo> = (0..1024u16)
        .map(|i| NodeNo(if i == 7 { 500 } else { i }))
        .collect(rt.alloc())?;
    let tree = filled(rt.alloc(), &parents, &homes)?;
    check_choice(&rt, &tree, &[1; 1024], Some((7, 500)));
    check_choice(&rt, &tree, &[0, 0, 0, 1, 1, 1], Some((3, 4)));
    assert!(rt; tree.holds(RangeNo(500), UnitNo(7)));
    assert!(rt; !tree.holds(RangeNo(7), UnitNo(7)));
    Ok(())
}

#[test]
fn everything_at_the_root(rt: HostRuntime) -> Result<(), Fail> {
    let homes = [NodeNo(0); 1024];
    let one = filled(rt.alloc(), &[NodeNo(0)], &homes)?;
    assert_eq!(rt; one.units(), 1024);
    check_choice(&rt, &one, &[1; 1024], Some((0, 1)));
    let tree = filled(rt.alloc(), &[NodeNo(0), NodeNo(0), NodeNo(1)], &homes)?;
    assert_eq!(rt; held(&tree, 0), [true; 5]);
    assert_eq!(rt; held(&tree, 2), [false; 5]);
    check_choice(&rt, &tree, &[0, 1, 0, 1, 1], Some((1, 3)));
    Ok(())
}

#[test]
fn refused_fillings_change_nothing(rt: HostRuntime) -> Result<(), Fail> {
    let mut tree = bypass(rt.alloc())?;
    let many = [NodeNo(9); 1025];
    let own = [NodeNo(0), NodeNo(1)];
    assert_eq!(rt; tree.fill(&many, &[]).map_err(Fault::tells), Err((17, 0)));
    assert_eq!(rt; tree.fill(&own, &many).map_err(Fault::tells), Err((17, 0)));
    assert_eq!(rt;
        tree.fill(&many[0..2], &many[0..2]).map_err(Fault::tells),
        Err((18, 0))
    );
    assert_eq!(rt;
        tree.fill(&own, &many[0..2]).map_err(Fault::tells),
        Err((18, 1))
    );
    let homes = [NodeNo(0), NodeNo(1)];
    assert_eq!(rt;
        tree.fill(&own[0..1], &homes).map_err(Fault::tells),
        Err((19, 1))
    );
    assert_eq!(rt; tree.units(), 4);
    assert_eq!(rt; held(&tree, 1), [true, true, false, true, false]);
    Ok(())
}
