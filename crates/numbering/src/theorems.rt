// What the numbering call says holds of the jobs that programs make. Nothing here is run: the contract is a theorem, and its check
// is the proof.
ghost use Rattle.numbering.specs.Stacked.{ClosedJobsAreLegendsOfJobs};

// A one-series job closed by its total, with entries over it or without, is a legend of its whole job.
pub fn closed_jobs_are_legends_of_jobs()
    ensures { ClosedJobsAreLegendsOfJobs }
{}
