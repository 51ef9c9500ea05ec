// The console: a job file from standard input, its transcript to standard output. All that is printed is made by one call of the
// library; the program moves bytes.
#![tactic(auto)]

use jobfile::input::{MOST, fill};
use jobrun::run::run_file;
use std::io;
use std::io::Write;

fn main(rt: HostRuntime) -> io::Result<()> {
    let mut file = [0u8; MOST];
    let length = fill(&mut rt.stdin(), &mut file)?;
    let printed = run_file(rt.alloc(), &file[..length])?;
    rt.stdout().write_all(&printed)
}
