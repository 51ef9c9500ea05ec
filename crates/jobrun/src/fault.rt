// The line of a refused file.
ghost use Rattle.std.specs.Prelude.{◌≡◌, IfOk};
ghost use Rattle.jobfile.specs.Faults.{job_told};
ghost use Rattle.jobrun.specs.Prints.{fault_line};

use jobfile::fault::JobFault;
use std::alloc::{AllocError, Global};

// Its number, its block and its record.
pub(crate) fn fault_text(heap: Global, fault: JobFault) -> Result<Vec<u8>, AllocError>
    ensures { IfOk result (λ v. v.items ≡ fault_line (job_told fault)) }
{
    let (number, block, place) = (fault.number(), fault.block(), fault.place());
    let line = format!(in heap; "file {number} {block} {place}\n")?;
    Ok(line.into_bytes())
}
