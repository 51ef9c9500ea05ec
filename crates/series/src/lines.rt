// The one-series network as a network: every question is answered by arithmetic.
ghost use Rattle.std.specs.Prelude.{◌≡◌, ◌+◌, ◌<◌, ◌≤◌, []};
ghost use Rattle.series.specs.Job.{job_of, part_count, sign_count, standing_line, pair_line, count_line, job_net};
ghost use Rattle.series.specs.Key.{role_at, InJob};
ghost use Rattle.series.specs.Limits.{limits_of};

use crate::one_series::OneSeries;
use arrayvec::ArrayVec;
use network::Network;
use network::role::Role;

impl OneSeries {
    // A network without parts and signs: source and sink alone.
    pub fn new() -> OneSeries
        ensures { job_of result ≡ record { parts = []; signs = [] } }
    {
        OneSeries {
            parts: ArrayVec::new(),
            signs: ArrayVec::new(),
        }
    }

    // What the line at a place stands for: one line for each part, then for each pair, then for each sign.
    pub(crate) fn role_at(&self, place: usize) -> Role
        ensures role { result ≡ role_at (job_of self.now) place }
        ensures inside { InJob (job_of self.now) result }
    {
        let (n, m) = (self.parts.len(), self.signs.len());
        if place < n {
            return Role::Standing(place);
        }
        let pair = place - n;
        if pair < n * m {
            Role::Pair(pair / m, pair % m)
        } else if pair - n * m < m {
            Role::Count(pair - n * m)
        } else {
            Role::Other
        }
    }

    // The line of a part: source to part, by its standing.
    fn standing_line(&self, p: usize) -> (u16, u16, u16, u16)
        requires { p < part_count (job_of self.now) }
        ensures { result ≡ standing_line (job_of self.now) p }
    {
        let standing = self.parts[p].standing;
        (0, node(p), standing.fewest(), standing.utmost())
    }

    // The line of a pair: part to sign, 0..1 where the mask allows the sign.
    fn pair_line_at(&self, p: usize, s: usize) -> (u16, u16, u16, u16)
        requires { (p < part_count (job_of self.now)) × (s < sign_count (job_of self.now)) }
        ensures { result ≡ pair_line (job_of self.now) p s }
    {
        let allowed = self.parts[p].allows(s);
        (node(p), node(self.parts.len() + s), 0, u16::from(allowed))
    }

    // The line of a sign: sign to sink, with the sign's bounds.
    fn count_line(&self, s: usize) -> (u16, u16, u16, u16)
        requires { s < sign_count (job_of self.now) }
        ensures { result ≡ count_line (job_of self.now) s }
    {
        let (n, m) = (self.parts.len(), self.signs.len());
        let sign = self.signs[s];
        (
            node(n + s),
            node(n + m),
            u16::from(sign.least),
            u16::from(sign.most),
        )
    }
}

// The node behind the source and so many others: the parts come first, then the signs, then the sink.
fn node(others: usize) -> u16
    requires { others ≤ 128 }
    ensures { result ≡ 1 + others }
{
    1 + others as u16
}

impl Network for OneSeries {
    ghost meaning = { λ x. job_net (job_of x) };

    ghost limits = { limits_of };

    fn nodes(&self) -> usize {
        self.parts.len() + self.signs.len() + 2
    }

    #[tactic(auto, using(crate::specs::Counts::size_is))]
    fn lines(&self) -> usize {
        let (n, m) = (self.parts.len(), self.signs.len());
        n + n * m + m
    }

    #[tactic(auto, using(crate::proofs::Roles::role_line))]
    fn line(&self, place: usize) -> Option<(u16, u16, u16, u16)> {
        match self.role_at(place) {
            Role::Standing(p) => Some(self.standing_line(p)),
            Role::Pair(p, s) => Some(self.pair_line_at(p, s)),
            Role::Count(s) => Some(self.count_line(s)),
            Role::Other => None,
        }
    }
}
