// Reading a job file.
ghost use Rattle.std.specs.Prelude.{◌≡◌, ◌≤◌, ◌++◌, length, drop, IfOk};
ghost use Rattle.jobfile.specs.Formed.{Few};
ghost use Rattle.jobfile.specs.Reading.{JobRead, Opened};

use crate::check::Lent;
use crate::fault::JobFault;
use crate::file::JobFile;
use series::records::{PartRecord, SignRecord};

// The file as a job file, if its form is right.
#[tactic(auto, using(crate::proofs::Checks::found_right))]
fn open<'a>(file: &'a [u8], lent: Lent) -> Result<JobFile<'a>, JobFault>
    ensures opened { Opened file.now lent.parts lent.signs result }
    ensures few { IfOk result (λ x. Few x.file.now) }
{
    let job = JobFile { file };
    job.check_form(lent)?;
    Ok(job)
}

// Copies records to the front of a slice, whose surplus is kept.
fn copy_front<R: Copy>(to: &mut [R], from: &[R])
    requires { length from.now ≤ length to.old }
    ensures { to.new ≡ from.now ++ drop (length from.now) to.old }
{
    to[..from.len()].copy_from_slice(from);
}

// Reads a file, and copies the records of its parts and signs into the lent slices. Nothing is written before all is found right.
pub fn read<'a>(
    file: &'a [u8],
    parts: &mut [PartRecord],
    signs: &mut [SignRecord],
) -> Result<JobFile<'a>, JobFault>
    ensures { JobRead file.now parts.old signs.old parts.new signs.new result }
{
    let lent = Lent {
        parts: parts.len(),
        signs: signs.len(),
    };
    let job = open(file, lent)?;
    let _network = job.network()?;
    copy_front(parts, &job.part_records());
    copy_front(signs, &job.sign_records());
    Ok(job)
}
