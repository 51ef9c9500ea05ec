// The closing layer as a legend: the last line stands for nothing in particular, the others for what they do below.
// Each layer hands the five questions on for itself: no impl for every layer may be written here, since the trait is another crate's.
ghost use Rattle.layers.specs.Closing.{standing_last, closed_net};
ghost use Rattle.layers.specs.Keys.{keyed_kept};
ghost use Rattle.layers.specs.Last.{size_grows};

use super::Closing;
use network::legend::Legend;
use network::role::Role;

impl<L: Legend> Legend for Closing<L> {
    ghost key = { λ x. L.Legend.key x.below };

    ghost keyed = { λ x.
        let below = L.Network.meaning x.below in
        keyed_kept below (closed_net below x.last) (L.Legend.key x.below) (size_grows below (standing_last below x.last)) (L.Legend.keyed x.below) };

    fn parts(&self) -> usize {
        self.below.parts()
    }

    fn signs(&self) -> usize {
        self.below.signs()
    }

    fn role(&self, place: usize) -> Role {
        self.below.role(place)
    }

    fn part_line(&self, part: usize) -> Option<usize> {
        self.below.part_line(part)
    }

    fn pair_line(&self, part: usize, sign: usize) -> Option<usize> {
        self.below.pair_line(part, sign)
    }
}
