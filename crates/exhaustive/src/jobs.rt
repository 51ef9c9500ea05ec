// Jobs compared with the sift: all their numberings, under entries too.
ghost use Rattle.std.specs.Prelude.{◌<◌};

use crate::lines::bounds_kept;
use crate::random::Random;
use crate::sifted::Sifted;
use crate::small_job::Job;
use crate::tally::Tally;
use itertools::Itertools;
use job::closed_job;
use layers::closing::Closing;
use layers::entries::Entries;
use layers::entry::{Bound, Entry};
use network::line_record::LineRecord;
use series::one_series::OneSeries;
use series::records::{Part, PartRecord, SignRecord, Standing};
use std::alloc::{AllocError, Global};
use std::{io, iter};

// The flows of all lawful numberings that keep the bounds of the lines, which entries may have made narrower.
fn all_numberings(
    alloc: Global,
    job: &Job,
    lines: &[LineRecord],
) -> Result<Vec<Vec<usize>>, AllocError> {
    let signs = (0..job.signs.len())
        .map(Some)
        .chain(iter::once(None))
        .collect_vec(alloc)?;
    let choices = job.parts.iter().map(|_| signs.iter().copied());
    let mut flows = Vec::new(alloc);
    for numbering in choices.multi_cartesian_product(alloc)? {
        let numbering = numbering?;
        if job.is_lawful(&numbering) {
            let flow = job.carried(alloc, &numbering)?;
            if bounds_kept(lines, &flow) {
                flows.push(flow)?;
            }
        }
    }
    Ok(flows)
}

fn record_of(part: &Part) -> PartRecord {
    PartRecord {
        mask: part.mask,
        standing: part.standing as u8,
    }
}

fn loaded(alloc: Global, job: &Job) -> io::Result<Closing<OneSeries>> {
    let parts: Vec<PartRecord> = job.parts.iter().map(record_of).collect(alloc)?;
    let mut series = OneSeries::new();
    series
        .load(parts.len(), job.signs.len(), &parts, &job.signs)
        .map_err(|_| io::Error::other("a job is refused"))?;
    closed_job(series, job.lo, job.hi).map_err(|_| io::Error::other("a total is refused"))
}

// Lays an entry, and narrows its line by it if it was accepted.
fn enter(layer: &mut Entries<Closing<OneSeries>>, lines: &mut [LineRecord], random: &mut Random) {
    let line = random.below(lines.len());
    let amount = random.below(3) as u16;
    let bound = if random.below(2) == 0 {
        Bound::AtLeast
    } else {
        Bound::AtMost
    };
    let entry = Entry {
        line,
        bound,
        amount,
    };
    if layer.lay(entry).is_ok()
        && let Some(line) = lines.get_mut(line)
    {
        match bound {
            Bound::AtLeast => line.least = line.least.max(amount),
            Bound::AtMost => line.most = line.most.min(amount),
        }
    }
}

// Compares a job under so many entries that are tried; the number of its lawful numberings under them.
pub fn compare_job(
    alloc: Global,
    job: &Job,
    entries: u32,
    random: &mut Random,
    tally: &mut Tally,
) -> io::Result<usize> {
    let mut layer = Entries::new(loaded(alloc, job)?);
    let mut lines = job.lines(alloc)?;
    for _ in 0..entries {
        enter(&mut layer, &mut lines, random);
    }
    let flows = all_numberings(alloc, job, &lines)?;
    tally.compare(&lines, &flows, &Sifted::of(&layer));
    Ok(flows.len())
}

fn random_part(random: &mut Random, signs: u64) -> Part {
    Part {
        mask: random.below(8) as u64 & signs,
        standing: match random.below(3) {
            0 => Standing::LeftOut,
            1 => Standing::Optional,
            _ => Standing::Required,
        },
    }
}

fn random_sign(random: &mut Random) -> SignRecord {
    let least = (random.below(5) / 4) as u8;
    SignRecord {
        least,
        most: least + random.below(3) as u8,
    }
}

// Up to four parts and three signs.
fn generate(alloc: Global, random: &mut Random) -> Result<Job, AllocError> {
    let n = random.below(5);
    let m = random.below(4);
    let lo = random.below(3) as u16;
    let hi = lo + random.below(4) as u16;
    let mut parts = Vec::new(alloc);
    let mut signs = Vec::new(alloc);
    // so many are drawn of both, however few the job keeps
    for _ in 0..8 {
        parts.push(random_part(random, (1 << m) - 1))?;
        signs.push(random_sign(random))?;
    }
    parts.truncate(n);
    signs.truncate(m);
    Ok(Job {
        parts,
        signs,
        lo,
        hi,
    })
}

pub fn compare_jobs(alloc: Global, cases: u32, entries: u32) -> io::Result<Tally> {
    let mut random = Random::new(1);
    let mut tally = Tally::default();
    for _ in 0..cases {
        let job = generate(alloc, &mut random)?;
        compare_job(alloc, &job, entries, &mut random, &mut tally)?;
    }
    Ok(tally)
}
