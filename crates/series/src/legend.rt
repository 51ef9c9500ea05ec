// The one-series network as a legend: which of its lines stands for which part, pair or sign.
ghost use Rattle.series.specs.Job.{job_of};
ghost use Rattle.series.specs.Key.{key_of};
ghost use Rattle.series.specs.Limits.{held};
ghost use Rattle.series.specs.Keyed;

use crate::one_series::OneSeries;
use network::legend::Legend;
use network::role::Role;

impl Legend for OneSeries {
    ghost key = { λ x. key_of (job_of x) };

    ghost keyed = { λ x. Keyed.keyed (job_of x) (held x) };

    fn parts(&self) -> usize {
        self.parts.len()
    }

    fn signs(&self) -> usize {
        self.signs.len()
    }

    fn role(&self, place: usize) -> Role {
        self.role_at(place)
    }

    fn part_line(&self, part: usize) -> Option<usize> {
        (part < self.parts.len()).then_some(part)
    }

    fn pair_line(&self, part: usize, sign: usize) -> Option<usize> {
        let (n, m) = (self.parts.len(), self.signs.len());
        (part < n && sign < m).then(|| n + part * m + sign)
    }
}
