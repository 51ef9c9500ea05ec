// Counts all numberings and all flows of small jobs and networks by the definitions alone, and compares every outcome, verdict,
// fixed amount and bottleneck with the sift's.
#![tactic(auto)]

mod jobs;
mod lines;
mod named;
mod networks;
mod random;
mod sifted;
mod small_job;
mod tally;

use crate::jobs::{compare_job, compare_jobs};
use crate::named::named;
use crate::networks::compare_networks;
use crate::random::Random;
use crate::tally::Tally;
use std::alloc::Global;
use std::io;

fn compare_named(rt: &impl Print, alloc: Global) -> io::Result<()> {
    let mut random = Random::new(0);
    let mut tally = Tally::default();
    for (name, job) in named(alloc)? {
        let lawful = compare_job(alloc, &job, 0, &mut random, &mut tally)?;
        println!(rt; "{name}: {lawful} lawful")?;
    }
    println!(rt; "jobs by name: {tally}")
}

fn main(rt: HostRuntime) -> io::Result<()> {
    let alloc = rt.alloc();
    compare_named(&rt, alloc)?;
    println!(rt; "generated jobs: {}", compare_jobs(alloc, 2000, 0)?)?;
    println!(rt;
        "generated jobs under entries: {}",
        compare_jobs(alloc, 2000, 3)?
    )?;
    println!(rt; "listed networks: {}", compare_networks(alloc, 3000)?)
}
