// What is wrong with a job file; the block is counted from 0, the record from 1.
ghost use Rattle.std.specs.Prelude.{◌≡◌, ◌<◌};
ghost use Rattle.jobfile.specs.Faults.{job_told};
ghost use Rattle.jobfile.specs.declared.fault.JobFault.TheVariants.{Record};

use layout::places::signs_start;
use records::fault::RecordFault;
use series::load::LoadRefusal;

#[derive(Clone, Copy, PartialEq, Eq, Debug)]
pub enum JobFault {
    Record(RecordFault),
    // the length is no block's, or not what the head gives
    Length,
    // more than 64 parts or signs
    TooMany,
    // a lent slice is too short for the records
    Short,
    // the job is not loaded; it has so many parts
    Load(LoadRefusal, u8),
    // the least total is above the most
    Unordered,
}

// By hand: the contracts of `?` go by `from_gives`, and the derive of `thiserror` gives none.
impl From<RecordFault> for JobFault {
    ghost from_gives = { λ e r. r ≡ Record e };

    fn from(e: RecordFault) -> JobFault {
        JobFault::Record(e)
    }
}

impl JobFault {
    // The numbers of refusals are the product's own, so each variant has its own here.
    pub fn number(self) -> u8
        ensures { result ≡ (job_told self).0 }
    {
        match self {
            JobFault::Record(e) => e.number(),
            JobFault::Length => 14,
            JobFault::TooMany => 2,
            JobFault::Short => 1,
            JobFault::Load(e, _) => e.number(),
            JobFault::Unordered => 9,
        }
    }

    pub fn block(self) -> usize
        ensures { result ≡ (job_told self).1 }
    {
        match self {
            JobFault::Record(e) => e.block(),
            JobFault::Load(LoadRefusal::Sign(s), n) => signs_start(n) + s / 16,
            JobFault::Load(LoadRefusal::Mask(p) | LoadRefusal::Standing(p), _) => 1 + p / 16,
            _ => 0,
        }
    }

    pub fn place(self) -> usize
        ensures { result ≡ (job_told self).2 }
    {
        match self {
            JobFault::Record(e) => e.place(),
            JobFault::Load(
                LoadRefusal::Sign(k) | LoadRefusal::Mask(k) | LoadRefusal::Standing(k),
                _,
            ) => { 1 + k % 16 }
            JobFault::Load(LoadRefusal::TooMany, _) | JobFault::TooMany | JobFault::Unordered => 1,
            _ => 0,
        }
    }
}
