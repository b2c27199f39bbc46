// The drainage tree of a waterway, with units along its reaches.
mod held;

ghost use Rattle.std.specs.Prelude.{◌≡◌, ℕ, ◌≤◌, [], length, MatchResult, OnErr};
ghost use Rattle.structures.specs.Drainage.{node_at, falls, InOrder, FirstBroken, Housed, FirstHomeless, Drainage, CatchmentsAreDrained};
ghost use Rattle.structures.specs.Extremes.{HighestFound};
ghost use Rattle.structures.specs.Held.{Kept};
ghost use Rattle.structures.specs.Lowest.{LowestFound};
ghost use Rattle.structures.specs.Marks.{marked};
ghost use Rattle.structures.specs.Tree.{tree, Filled};
ghost use Rattle.terms.specs.Faults.{tells, OutOfMemoryOnlyIf};

use crate::copying::copied;
use crate::limits::within_limit;
use crate::structure::{Audited, Structure};
use held::Held;
use std::alloc::Global;
use terms::{Fault, NodeNo, RangeNo, UnitNo};

// Nodes are numbers in two lists, and no boxes with children: callers and ranges tell nodes by
// number, and the choice is one pass from the highest number down that allocates nothing.
#[derive(Drop)]
pub struct Tree {
    // Where the lists of the next filling are kept.
    heap: Global,
    // The node into which each node drains.
    parents: Vec<NodeNo>,
    // The node at which each unit stands.
    homes: Vec<NodeNo>,
    ghost ok: { Drainage parents.items homes.items },
}

// The rule for the parent of a node: node 0 is its own, and any other node drains into one with a
// smaller number.
fn falls(node: NodeNo, parent: NodeNo) -> bool
    ensures { result ≡ falls node.0 parent.0 }
{
    if node == NodeNo(0) {
        parent == node
    } else {
        parent < node
    }
}

// Refuses the first node whose parent breaks the rule.
fn check_parents(parents: &[NodeNo]) -> Result<(), Fault>
    requires { length parents.now ≤ 1024 }
    ensures { MatchResult result (λ _. InOrder parents.now) (λ fault. ((v : ℕ) × FirstBroken parents.now v × (tells fault ≡ (18, v)))) }
{
    let broken = parents
        .iter()
        .enumerate()
        .position(|(node, parent)| !falls(NodeNo(node as u16), *parent));
    match broken {
        Some(node) => Err(Fault::ParentOutOfOrder(NodeNo(node as u16))),
        None => Ok(()),
    }
}

// Refuses the first unit whose home is not one of so many nodes.
fn check_homes(nodes: usize, homes: &[NodeNo]) -> Result<(), Fault>
    requires { length homes.now ≤ 1024 }
    ensures { MatchResult result (λ _. Housed nodes homes.now) (λ fault. ((i : ℕ) × FirstHomeless nodes homes.now i × (tells fault ≡ (19, i)))) }
{
    match homes.iter().position(|home| home.0 as usize >= nodes) {
        Some(unit) => Err(Fault::HomeTooHigh(UnitNo(unit as u16))),
        None => Ok(()),
    }
}

impl Tree {
    // A tree with no nodes and no units.
    pub fn new(heap: Global) -> Tree
        ensures no_nodes { result.parents.items ≡ [] }
        ensures no_units { result.homes.items ≡ [] }
        ensures drained { CatchmentsAreDrained }
        ensures highest { HighestFound }
        ensures lowest { LowestFound }
    {
        Tree {
            heap,
            parents: Vec::new(heap),
            homes: Vec::new(heap),
        }
    }

    // Puts these nodes and units in the place of what the tree had: the parent of each node, and the
    // home node of each unit. A refusal changes nothing. Want of memory is told only where there are
    // nodes.
    pub fn fill(&mut self, parents: &[NodeNo], homes: &[NodeNo]) -> Result<(), Fault>
        ensures filled { Filled parents.now homes.now self.new.parents.items self.new.homes.items result }
        ensures memory { OutOfMemoryOnlyIf result (1 ≤ length parents.now) }
        ensures kept { OnErr result (self.new ≡ self.old) }
    {
        within_limit(parents.len())?;
        within_limit(homes.len())?;
        check_parents(parents)?;
        check_homes(parents.len(), homes)?;
        // Both copies are made before any change.
        let drained = copied(self.heap, parents)?;
        let housed = copied(self.heap, homes)?;
        self.parents = drained;
        self.homes = housed;
        Ok(())
    }

    // What each node holds of the marked units that stand at it.
    fn at_homes(&self, marks: &[u8]) -> [Held; 1024]
        ensures { Kept (marked (length self.now.homes.items) marks.now) (node_at self.now.homes.items) (length self.now.homes.items) 1024 result }
    {
        // Fixed memory on purpose: a draw must not allocate while it steps.
        let mut held = [Held::Nothing; 1024];
        for (i, (home, mark)) in self.homes.iter().zip(marks).enumerate() {
            if *mark != 0 {
                let node = home.0 as usize;
                held[node] = held[node].with(UnitNo(i as u16));
            }
        }
        held
    }
}

impl Structure for Tree {
    ghost meaning = { λ made. tree made.parents.items made.homes.items made.ok };

    fn units(&self) -> u16 {
        self.homes.len() as u16
    }

    // From the highest node down, each carries what it holds into its parent, until one holds two.
    // The root comes last, so what it carries into itself is not met again.
    fn choice(&self, marks: &[u8]) -> Option<(UnitNo, UnitNo)> {
        let mut held = self.at_homes(marks);
        for (node, parent) in self.parents.iter().enumerate().rev() {
            let parent = parent.0 as usize;
            match held[node] {
                Held::Nothing => {}
                Held::One(unit) => held[parent] = held[parent].with(unit),
                Held::Two(first, second) => return Some((first, second)),
            }
        }
        None
    }
}

impl Audited for Tree {
    // One for each node.
    fn ranges(&self) -> u32 {
        self.parents.len() as u32
    }

    // Whether the way down from the unit's home comes to the node. Numbers fall along it, so it has come
    // there, if ever, once they are not above the node's. A number that is no node is above all of them.
    fn holds(&self, range: RangeNo, unit: UnitNo) -> bool {
        let Some(home) = self.homes.get(unit.0 as usize) else {
            return false;
        };
        let mut node = home.0;
        // By hand, since it follows parents and counts no index.
        while node as u32 > range.0 {
            node = self.parents[node as usize].0;
        }
        node as u32 == range.0
    }
}
