// The acts of a file as one list.
ghost use Rattle.std.specs.Prelude.{◌≡◌, IfOk};
ghost use Rattle.jobfile.specs.Contents.{acts_of};
ghost use Rattle.jobfile.specs.Formed.{Formed};

use contents::act::Act;
use jobfile::file::JobFile;
use std::alloc::{AllocError, Global};

pub(crate) fn acts_of(heap: Global, job: &JobFile<'_>) -> Result<Vec<Act>, AllocError>
    requires { Formed job.now.file.now }
    ensures { IfOk result (λ v. v.items ≡ acts_of job.now.file.now) }
{
    (0..job.act_count())
        .filter_map(|k| job.act(k))
        .collect(heap)
}
