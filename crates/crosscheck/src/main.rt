#![tactic(auto)]

// Checks of the kernel beside its proofs: worked parts, refusals, damaged memory, histories against dense elimination.
mod calls;
mod coordinates;
mod damage;
mod dense;
mod histories;
mod memory;
mod parts;
mod random;
mod refusals;
mod worked;

use damage::damaged_memory;
use field::elements::{Gf2, Gf3, Gf4, Gf251};
use histories::history;
use refusals::{coordinate_refusals, refusals};
use worked::worked_parts;

// A line for each field, since types cannot be looped over; the output has this order.
fn run(rt: &HostRuntime) -> anyhow::Result<()> {
    worked_parts::<Gf2>(rt)?;
    worked_parts::<Gf3>(rt)?;
    worked_parts::<Gf4>(rt)?;
    worked_parts::<Gf251>(rt)?;
    history::<Gf2>(rt, 1)?;
    history::<Gf3>(rt, 2)?;
    history::<Gf4>(rt, 3)?;
    history::<Gf251>(rt, 4)?;
    refusals(rt)?;
    damaged_memory(rt)?;
    coordinate_refusals(rt)
}

fn main(rt: HostRuntime) -> anyhow::Result<()> {
    run(&rt)
}
