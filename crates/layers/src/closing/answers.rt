// The closing layer as a network: the lines below, then the last.
ghost use Rattle.layers.specs.Closing.{closed_net};
ghost use Rattle.layers.specs.Limits.{closed_limits};

use super::Closing;
use network::Network;

impl<N: Network> Network for Closing<N> {
    ghost meaning = { λ x. closed_net (N.Network.meaning x.below) x.last };

    ghost limits = { λ x. closed_limits (N.Network.meaning x.below) x.last (N.Network.limits x.below) };

    fn nodes(&self) -> usize {
        self.below.nodes()
    }

    fn lines(&self) -> usize {
        let lines = self.below.lines();
        lines + usize::from(self.standing(lines).is_some())
    }

    fn line(&self, place: usize) -> Option<(u16, u16, u16, u16)> {
        let inside = self.below.line(place);
        if inside.is_some() {
            return inside;
        }
        let lines = self.below.lines();
        if place != lines {
            return None;
        }
        let last = self.standing(lines)?;
        Some((last.tail, last.head, last.least, last.most))
    }
}
