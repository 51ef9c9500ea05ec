// What the listed network answers.
ghost use Rattle.listed.specs.Held.{held};

use super::Listed;
use network::Network;

impl<'a> Network for Listed<'a> {
    ghost meaning = { held };

    ghost limits = { λ s. s.within };

    fn nodes(&self) -> usize {
        self.nodes
    }

    fn lines(&self) -> usize {
        self.records.len()
    }

    fn line(&self, place: usize) -> Option<(u16, u16, u16, u16)> {
        let line = self.records.get(place)?;
        Some((line.tail, line.head, line.least, line.most))
    }
}
