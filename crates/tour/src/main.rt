// Draws a year's inspection roll for a canal from start to finish, and prints each action.
#![tactic(auto)]

mod canal;
mod journal;

use canal::{GATES, SEED, SIZE};
use pivotal::Draw;
use std::alloc::Global;
use structures::{Line, Structure};
use terms::Fault;
use words::ParkMiller;

// The draw over a line of gates, each added with its cost, and set for the size of the roll.
fn set_draw(heap: Global) -> Result<Draw<Line>, Fault> {
    let line = Line::new(GATES.len() as u32)?;
    let mut draw = Draw::new(heap, line);
    for gate in GATES.iter() {
        draw.add(gate.cost)?;
    }
    draw.set_by_size(SIZE)?;
    Ok(draw)
}

// Steps until no unit is open. A step leaves one open unit fewer at least, so there are at most as
// many as units.
fn settle_all<S: Structure>(rt: &impl Print, draw: &mut Draw<S>) -> anyhow::Result<()> {
    let mut words = ParkMiller::new(SEED)?;
    for number in 1..=GATES.len() {
        match draw.step(&mut words) {
            Ok(record) => journal::print_step(rt, draw, number, &record)?,
            Err(Fault::NothingOpen) => break,
            Err(fault) => return Err(fault.into()),
        }
    }
    Ok(())
}

fn run(rt: &(impl Print + AllocGlobal)) -> anyhow::Result<()> {
    let mut draw = set_draw(rt.alloc())?;
    journal::print_register(rt, &draw)?;
    settle_all(rt, &mut draw)?;
    journal::print_roll(rt, &draw)
}

fn main(rt: HostRuntime) -> anyhow::Result<()> {
    run(&rt)
}
