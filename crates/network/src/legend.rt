// A legend: a network that also says what its lines stand for.
ghost use Rattle.std.specs.Prelude.{◌≡◌};
ghost use Rattle.network.specs.Key.{Key, Keyed};

use crate::Network;
use crate::role::Role;

pub trait Legend: Network {
    // How many parts and signs there are, and which line stands for which of them.
    ghost key: { Self → Key };

    fn parts(&self) -> usize
        ensures { result ≡ (key self.now).parts };

    fn signs(&self) -> usize
        ensures { result ≡ (key self.now).signs };

    // What the line at this place stands for.
    fn role(&self, place: usize) -> Role
        ensures { result ≡ (key self.now).role place };

    // The line of a part; none where there is no such part.
    fn part_line(&self, part: usize) -> Option<usize>
        ensures { result ≡ (key self.now).part_line part };

    // The line of a part with a sign, one outside its mask too; none where there is no such part or sign.
    fn pair_line(&self, part: usize, sign: usize) -> Option<usize>
        ensures { result ≡ (key self.now).pair_line part sign };

    // Each part and each pair has exactly one line, and it is the answer.
    ghost keyed: { (x : Self) → Keyed (Self.Network.meaning x) (key x) };
}
