// What is printed of a draw.
use crate::canal::{GATES, NAME, SEED, SIZE};
use pivotal::{Draw, StepRecord};
use structures::Structure;
use terms::UnitNo;

// Whose roll it is, and each gate with its cost and the numerator that it starts from. The costliest
// gate of this canal is sure to be drawn, so its numerator is the denominator of all.
pub(crate) fn print_register<S: Structure>(rt: &impl Print, draw: &Draw<S>) -> anyhow::Result<()> {
    println!(rt; "{NAME}: {SIZE} of {} gates, seed {SEED}", GATES.len())?;
    println!(rt; "")?;
    println!(rt; "unit      cost  numerator  name")?;
    let mut denominator = 0;
    for (i, gate) in GATES.iter().enumerate() {
        let unit = draw.unit(UnitNo(i as u16))?;
        denominator = denominator.max(unit.start);
        println!(rt;
            "{i:>4}  {:>8}  {:>9}  {}",
            unit.measure, unit.start, gate.name
        )?;
    }
    println!(rt; "each over {denominator}")?;
    println!(rt; "")?;
    Ok(())
}

// One step: the units, the number drawn below the bound, and what the units have afterwards.
pub(crate) fn print_step<S: Structure>(
    rt: &impl Print,
    draw: &Draw<S>,
    step: usize,
    record: &StepRecord,
) -> anyhow::Result<()> {
    let first = draw.unit(record.first)?;
    print!(rt;
        "step {step:>2}: number {} of {}, ",
        record.number, record.bound
    )?;
    match record.second {
        Some(other) => {
            let second = draw.unit(other)?;
            println!(rt;
                "units {} and {} get {} and {}",
                record.first.0, other.0, first.present, second.present
            )?;
        }
        None => println!(rt; "unit {} alone gets {}", record.first.0, first.present)?,
    }
    Ok(())
}

// The gates on the roll, by name.
pub(crate) fn print_roll<S: Structure>(rt: &impl Print, draw: &Draw<S>) -> anyhow::Result<()> {
    // A list of its own to be written into: a roll asks for no memory.
    let mut list = [0u16; 1024];
    let drawn = draw.roll(&mut list)?;
    println!(rt; "")?;
    println!(rt; "the roll")?;
    for unit in list.iter().take(drawn) {
        if let Some(gate) = GATES.get(*unit as usize) {
            println!(rt; "{unit:>4}  {}", gate.name)?;
        }
    }
    Ok(())
}
