// The entries layer as a legend: each line stands for what it does below.
// Each layer hands the five questions on for itself: no impl for every layer may be written here, since the trait is another crate's.
ghost use Rattle.std.proofs.Common.{arith};
ghost use Rattle.layers.specs.Column.{entries_of};
ghost use Rattle.layers.specs.Entries.{bounds_under, net_under};
ghost use Rattle.layers.specs.Keys.{keyed_kept};
ghost use Rattle.layers.specs.Under.{size_bounded};

use super::Entries;
use network::legend::Legend;
use network::role::Role;

impl<L: Legend> Legend for Entries<L> {
    ghost key = { λ x. L.Legend.key x.below };

    ghost keyed = { λ x.
        let below = L.Network.meaning x.below in
        let es = entries_of x.column in
        keyed_kept below (net_under below es) (L.Legend.key x.below) (omega (arith, size_bounded below (bounds_under below es))) (L.Legend.keyed x.below) };

    fn parts(&self) -> usize {
        self.below.parts()
    }

    fn signs(&self) -> usize {
        self.below.signs()
    }

    fn role(&self, place: usize) -> Role {
        self.below.role(place)
    }

    fn part_line(&self, part: usize) -> Option<usize> {
        self.below.part_line(part)
    }

    fn pair_line(&self, part: usize, sign: usize) -> Option<usize> {
        self.below.pair_line(part, sign)
    }
}
