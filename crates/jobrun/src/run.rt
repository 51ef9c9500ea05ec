// The call that runs a file.
ghost use Rattle.std.specs.Prelude.{IfOk};
ghost use Rattle.jobfile.specs.Formed.{Formed, Room};
ghost use Rattle.jobrun.specs.Prints.{Prints};

use crate::fault::fault_text;
use crate::file_acts::acts_of;
use desk::run::run;
use jobfile::file::JobFile;
use jobfile::read::read;
use series::records::{PartRecord, SignRecord};
use std::alloc::{AllocError, Global};

// A file whose form is right.
fn run_job(heap: Global, job: &JobFile<'_>) -> Result<Vec<u8>, AllocError>
    requires formed { Formed job.now.file.now }
    requires room { Room job.now.file.now 64 64 }
    ensures { IfOk result (λ v. Prints job.now.file.now v.items) }
{
    match job.network() {
        Ok(network) => {
            let acts = acts_of(heap, job)?;
            run(heap, network, job, &acts)
        }
        Err(fault) => fault_text(heap, fault),
    }
}

// What is printed of a file: the transcript of its acts, or the line of its first fault. Want of memory is the one other answer.
pub fn run_file(heap: Global, file: &[u8]) -> Result<Vec<u8>, AllocError>
    ensures { IfOk result (λ v. Prints file.now v.items) }
{
    let mut parts = [PartRecord::default(); 64];
    let mut signs = [SignRecord::default(); 64];
    match read(file, &mut parts, &mut signs) {
        Ok(job) => run_job(heap, &job),
        Err(fault) => fault_text(heap, fault),
    }
}
