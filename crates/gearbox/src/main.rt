// Runs one list of calls on the gearbox job and on a listed network of the same meaning, and prints each action of both.
#![tactic(auto)]

mod listed_gearbox;
mod print;
mod script;
#[cfg(test)]
mod tests;

use crate::listed_gearbox::{LINES, NODES, listed_lines};
use crate::print::print_turns;
use crate::script::script;
use anyhow::anyhow;
use listed::lent::Listed;
use sample_jobs::jobs::GEARBOX;
use session::run::run;

fn main(rt: HostRuntime) -> anyhow::Result<()> {
    let closed = GEARBOX.closed()?;
    let lines = listed_lines();
    let mut listed = Listed::new();
    listed.load(NODES, LINES, &lines).map_err(|refusal| anyhow!(
        "the listed network is refused with {}",
        refusal.number()
    ))?;
    let mut first = script(rt.alloc())?;
    let mut second = script(rt.alloc())?;
    let (_, _) = run(closed, listed, &mut first, &mut second);
    print_turns(&rt, "one series", &first)?;
    print_turns(&rt, "listed", &second)?;
    Ok(())
}
