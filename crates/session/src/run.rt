// The whole promise, on one call.
ghost use Rattle.std.specs.Prelude.{◌≡◌};
ghost use Rattle.session.specs.Promise.{Faithful};

use crate::play::play;
use crate::turn::Turn;
use network::Network;

// Makes every call of both lists, each list on a fresh entries layer over its network, and puts each answer beside its call. The
// networks are handed back as they were.
pub fn run<A: Network, B: Network>(a: A, b: B, first: &mut [Turn], second: &mut [Turn]) -> (A, B)
    ensures back { result ≡ (a, b) }
    ensures faithful { Faithful (A.Network.meaning a) (B.Network.meaning b) first.old first.new second.old second.new }
{
    let a = play(a, first);
    let b = play(b, second);
    (a, b)
}
