// Numbers two jobs, without entries and with them, has the judge pass each numbering, and turns it into its flow.
#![tactic(auto)]

mod print;
mod work;

use crate::print::Verb;
use crate::work::Work;
use sample_jobs::jobs::{GEARBOX, PUMP};

// Shaft is 14; then gear is not 10, which leaves no numbering.
fn number_gearbox(rt: &impl Print, mut work: Work<'_>) -> anyhow::Result<()> {
    work.number(rt)?;
    work.enter(rt, 0, Verb::Is, 1)?;
    work.number(rt)?;
    work.enter(rt, 1, Verb::IsNot, 0)?;
    work.number(rt)
}

// Rotor is not 3, so seal, though optional, has to be 3.
fn number_pump(rt: &impl Print, mut work: Work<'_>) -> anyhow::Result<()> {
    work.number(rt)?;
    work.enter(rt, 1, Verb::IsNot, 2)?;
    work.number(rt)
}

fn main(rt: HostRuntime) -> anyhow::Result<()> {
    number_gearbox(&rt, Work::open(&GEARBOX)?)?;
    number_pump(&rt, Work::open(&PUMP)?)
}
