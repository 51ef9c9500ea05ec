// The entries layer as a network: the lines below, with the bounds that the standing entries leave.
ghost use Rattle.layers.specs.Column.{entries_of};
ghost use Rattle.layers.specs.Entries.{net_under};
ghost use Rattle.layers.specs.Limits.{under_limits};

use super::Entries;
use crate::entry::Bounds;
use network::{Network, ask};

impl<N: Network> Network for Entries<N> {
    ghost meaning = { λ x. net_under (N.Network.meaning x.below) (entries_of x.column) };

    ghost limits = { λ x. under_limits (N.Network.meaning x.below) (entries_of x.column) (N.Network.limits x.below) };

    fn nodes(&self) -> usize {
        self.below.nodes()
    }

    #[tactic(auto, using(crate::specs::Under::size_bounded))]
    fn lines(&self) -> usize {
        self.below.lines()
    }

    #[tactic(auto, using(crate::proofs::Asked::line_under))]
    fn line(&self, place: usize) -> Option<(u16, u16, u16, u16)> {
        let (tail, head, least, most) = ask(&self.below, place)?;
        let present = self.column.bounds(place, Bounds { least, most });
        Some((tail, head, present.least, present.most))
    }
}
