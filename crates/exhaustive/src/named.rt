// The jobs that are known by name.
ghost use Rattle.std.specs.Prelude.{◌≤◌, length};

use crate::small_job::Job;
use series::records::Standing::{Optional, Required};
use series::records::{Part, SignRecord, Standing};
use std::alloc::{AllocError, Global};

// A literal of either record would take four lines of a table.
fn part(mask: u64, standing: Standing) -> Part {
    Part { mask, standing }
}

fn sign(least: u8, most: u8) -> SignRecord {
    SignRecord { least, most }
}

fn job(
    alloc: Global,
    parts: &[Part],
    signs: &[SignRecord],
    lo: u16,
    hi: u16,
) -> Result<Job, AllocError>
    requires parts { length parts.now ≤ 8 }
    requires signs { length signs.now ≤ 8 }
{
    Ok(Job {
        parts: parts.to_vec(alloc)?,
        signs: signs.to_vec(alloc)?,
        lo,
        hi,
    })
}

pub fn named(alloc: Global) -> Result<[(&'static str, Job); 9], AllocError> {
    Ok([
        (
            "no part, a sign that stays unused",
            job(alloc, &[], &[sign(0, 0)], 0, 64)?,
        ),
        (
            "no part, a sign that is to be used",
            job(alloc, &[], &[sign(1, 1)], 0, 64)?,
        ),
        (
            "a required part",
            job(alloc, &[part(1, Required)], &[sign(0, 1)], 0, 64)?,
        ),
        (
            "an optional part",
            job(alloc, &[part(1, Optional)], &[sign(0, 1)], 0, 64)?,
        ),
        (
            "an optional part, two to be signed",
            job(alloc, &[part(1, Optional)], &[sign(0, 1)], 2, 2)?,
        ),
        (
            "two required parts and an optional one",
            job(
                alloc,
                &[part(3, Required), part(3, Required), part(7, Optional)],
                &[sign(0, 1); 3],
                0,
                64,
            )?,
        ),
        (
            "gearbox",
            job(alloc, &[part(3, Required); 2], &[sign(0, 1); 2], 0, 64)?,
        ),
        (
            "four parts, two of them optional",
            job(
                alloc,
                &[
                    part(3, Required),
                    part(7, Required),
                    part(6, Optional),
                    part(14, Optional),
                ],
                &[sign(0, 1); 4],
                0,
                64,
            )?,
        ),
        (
            "a day's timetable",
            job(
                alloc,
                &[
                    part(3, Required),
                    part(3, Required),
                    part(3, Required),
                    part(3, Required),
                    part(7, Required),
                    part(30, Required),
                    part(31, Required),
                ],
                &[sign(1, 2), sign(1, 2), sign(1, 1), sign(0, 2), sign(0, 2)],
                0,
                64,
            )?,
        ),
    ])
}
