// A job as it is handed over, with names.
ghost use Rattle.std.specs.Prelude.{◌≡◌, ◌<◌, length, IfOk, IfErr, MatchResult};
ghost use Rattle.job.specs.Closed.{meaning_of};
ghost use Rattle.series.specs.Job.{job_of, whole_net};
ghost use Rattle.series.specs.declared.load.LoadRefusal.TheVariants.{TooMany};
ghost use Rattle.sample_jobs.specs.Sampled.{records_of, job_of_sample, name_at, SampleRefused};

use anyhow::anyhow;
use arrayvec::ArrayVec;
use job::closed_job;
use layers::closing::Closing;
use series::load::LoadRefusal;
use series::one_series::OneSeries;
use series::records::{PartRecord, SignRecord};

// A record, and what it is called.
#[derive(Clone, Copy)]
pub struct Named<R> {
    pub name: &'static str,
    pub record: R,
}

// The total of the job lies within lo and hi.
#[derive(Clone, Copy)]
pub struct Sample {
    pub name: &'static str,
    pub parts: &'static [Named<PartRecord>],
    pub signs: &'static [Named<SignRecord>],
    pub lo: u16,
    pub hi: u16,
}

// What the record at a place is called; a question mark where there is none.
pub fn name_at<R>(named: &[Named<R>], place: usize) -> &'static str
    ensures { result.now ≡ name_at named.now place }
{
    named.get(place).map_or("?", |named| named.name)
}

// The records alone, in memory that takes no heap; more than a job can have are refused as loading them would be.
fn records<R: Copy + Default>(named: &[Named<R>]) -> Result<ArrayVec<R, 64>, LoadRefusal>
    ensures { MatchResult result (λ v. v.items ≡ records_of named.now) (λ e. (e ≡ TooMany) × (64 < length named.now)) }
{
    if named.len() > 64 {
        return Err(LoadRefusal::TooMany);
    }
    let mut records = ArrayVec::new();
    for named in named {
        records.push(named.record);
    }
    Ok(records)
}

impl Sample {
    pub fn load(&self) -> Result<OneSeries, LoadRefusal>
        ensures loaded { IfOk result (λ series. job_of series ≡ job_of_sample self.now) }
        ensures refused { IfErr result (SampleRefused self.now) }
    {
        let parts = records(self.parts)?;
        let signs = records(self.signs)?;
        let mut series = OneSeries::new();
        series.load(parts.len(), signs.len(), &parts, &signs)?;
        Ok(series)
    }

    // The network of the whole job, closed by its total.
    pub fn closed(&self) -> anyhow::Result<Closing<OneSeries>>
        ensures { IfOk result (λ x. meaning_of x ≡ whole_net (job_of_sample self.now) self.now.lo self.now.hi) }
    {
        let series = self.load().map_err(|refusal| anyhow!(
            "the job is refused with {}",
            refusal.number()
        ))?;
        closed_job(series, self.lo, self.hi).map_err(|refusal| anyhow!(
            "the total is refused with {}",
            refusal.number()
        ))
    }
}
