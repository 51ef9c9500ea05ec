// The network of a whole job: the one-series network, closed from sink to source with the bounds of the total.
#![tactic(auto)]

ghost use Rattle.job.specs.Closed.{ClosesJob};

use layers::closing::{CloseRefusal, Closing};
use network::Network;
use series::one_series::OneSeries;

// Closes a job; refused exactly where lo is above hi.
#[tactic(auto, using(crate::proofs::Refused::refused))]
pub fn closed_job(series: OneSeries, lo: u16, hi: u16) -> Result<Closing<OneSeries>, CloseRefusal>
    ensures { ClosesJob series lo hi result }
{
    let sink = series.nodes() - 1;
    let mut job = Closing::new(series);
    job.close(sink as u16, 0, lo, hi)?;
    Ok(job)
}

#[cfg(test)]
mod tests;
