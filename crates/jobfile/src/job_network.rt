// The network of the job in a file: the one-series network, closed with the bounds of the total.
ghost use Rattle.std.specs.Prelude.{◌≡◌, length, MatchResult};
ghost use Rattle.series.specs.Job.{job_of};
ghost use Rattle.series.specs.Load.{job_from, Loadable, LoadRefused};
ghost use Rattle.jobfile.specs.Reading.{SeriesMade, NetMade};

use crate::fault::JobFault;
use crate::file::JobFile;
use job::closed_job;
use layers::closing::Closing;
use series::load::LoadRefusal;
use series::one_series::OneSeries;
use series::records::{PartRecord, SignRecord};

// The network of all these parts and signs.
fn loaded(parts: &[PartRecord], signs: &[SignRecord]) -> Result<OneSeries, LoadRefusal>
    ensures { MatchResult result (λ x. Loadable (length parts.now) (length signs.now) parts.now signs.now × (job_of x ≡ job_from (length parts.now) (length signs.now) parts.now signs.now)) (LoadRefused (length parts.now) (length signs.now) parts.now signs.now) }
{
    let mut series = OneSeries::new();
    series.load(parts.len(), signs.len(), parts, signs)?;
    Ok(series)
}

impl<'a> JobFile<'a> {
    // Loads the job of the file.
    fn series(&self) -> Result<OneSeries, JobFault>
        ensures { SeriesMade self.now.file.now result }
    {
        let parts = self.small_shape()?.parts;
        loaded(&self.part_records(), &self.sign_records()).map_err(|e| JobFault::Load(e, parts))
    }

    // The closed network of the job; loading refuses before closing does.
    pub fn network(&self) -> Result<Closing<OneSeries>, JobFault>
        ensures { NetMade self.now.file.now result }
    {
        let series = self.series()?;
        let head = self.head();
        closed_job(series, u16::from(head.least), u16::from(head.most)).map_err(
            |_| JobFault::Unordered,
        )
    }
}
