// Reads a job file from standard input, and prints what its blocks and records hold, or its first fault.
#![tactic(auto)]

ghost use Rattle.std.specs.Prelude.{◌+◌, ◌<◌, ◌^◌};

use contents::act::Act;
use contents::labels::Labels;
use jobfile::fault::JobFault;
use jobfile::file::JobFile;
use jobfile::input::{MOST, fill};
use jobfile::read::read;
use layout::places::signs_start;
use series::records::{PartRecord, SignRecord};
use std::{fmt, io, str};

// Where a record stands: its block, and its place among the block's records.
#[derive(Drop)]
struct Place {
    block: usize,
    record: usize,
}

impl Place {
    // The place of the record k of a kind whose blocks begin at `start`.
    fn of(start: usize, k: usize) -> Place
        requires { start < 2 ^ 54 }
    {
        Place {
            block: start + k / 16,
            record: 1 + k % 16,
        }
    }
}

impl fmt::Display for Place {
    fn fmt<W: fmt::Write>(&self, f: &mut fmt::Formatter<W>) -> fmt::Result {
        write!(f, "block {} record {}", self.block, self.record)
    }
}

// A label as text: the bytes of an accepted file's labels are printable.
fn shown(label: Option<&[u8]>) -> &str {
    label
        .and_then(|bytes| str::from_utf8(bytes).ok())
        .unwrap_or("")
}

fn print_parts(rt: &impl Print, job: &JobFile<'_>, parts: &[PartRecord]) -> io::Result<()> {
    for (p, part) in parts.iter().enumerate().take(job.parts()) {
        println!(rt;
            "{}: part {}, standing {}, mask {}",
            Place::of(1, p),
            shown(job.name(p)),
            part.standing,
            part.mask
        )?;
    }
    Ok(())
}

fn print_signs(rt: &impl Print, job: &JobFile<'_>, signs: &[SignRecord]) -> io::Result<()> {
    let start = signs_start(job.part_count());
    for (s, sign) in signs.iter().enumerate().take(job.signs()) {
        println!(rt;
            "{}: sign {}, {} to {}",
            Place::of(start, s),
            shown(job.text(s)),
            sign.least,
            sign.most
        )?;
    }
    Ok(())
}

fn print_act(rt: &impl Print, act: Act) -> io::Result<()> {
    match act {
        Act::Fix(part, sign) => println!(rt; "part {part} has sign {sign}"),
        Act::Bar(part, sign) => println!(rt; "part {part} has not sign {sign}"),
        Act::Require(part) => println!(rt; "part {part} is signed"),
        Act::LeaveOut(part) => println!(rt; "part {part} is not signed"),
        Act::Undo => println!(rt; "undo"),
        Act::Query => println!(rt; "query"),
    }
}

fn print_acts(rt: &impl Print, job: &JobFile<'_>) -> io::Result<()> {
    let acts = (0..job.act_count()).filter_map(|k| job.act(k));
    for (number, act) in (1usize..).zip(acts) {
        print!(rt; "act {number}: ")?;
        print_act(rt, act)?;
    }
    Ok(())
}

fn print_fault(rt: &impl Print, fault: JobFault) -> io::Result<()> {
    println!(rt;
        "file {} {} {}",
        fault.number(),
        fault.block(),
        fault.place()
    )
}

fn print_job(
    rt: &impl Print,
    job: &JobFile<'_>,
    parts: &[PartRecord],
    signs: &[SignRecord],
) -> io::Result<()> {
    println!(rt;
        "{}: {} parts, {} signs, total {} to {}",
        Place::of(0, 0),
        job.part_count(),
        job.sign_count(),
        job.least_total(),
        job.most_total()
    )?;
    print_parts(rt, job, parts)?;
    print_signs(rt, job, signs)?;
    print_acts(rt, job)
}

fn show(rt: &impl Print, file: &[u8]) -> io::Result<()> {
    let mut parts = [PartRecord::default(); 64];
    let mut signs = [SignRecord::default(); 64];
    match read(file, &mut parts, &mut signs) {
        Ok(job) => print_job(rt, &job, &parts, &signs),
        Err(fault) => print_fault(rt, fault),
    }
}

fn main(rt: HostRuntime) -> io::Result<()> {
    let mut file = [0u8; MOST];
    let length = fill(&mut rt.stdin(), &mut file)?;
    show(&rt, &file[..length])
}
