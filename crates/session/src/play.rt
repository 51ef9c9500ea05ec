// Makes the calls of a session in order.
ghost use Rattle.std.specs.Prelude.{◌≡◌};
ghost use Rattle.layers.specs.Column.{entries_of};
ghost use Rattle.layers.specs.Present.{Standing};
ghost use Rattle.session.specs.Log.{after_call};
ghost use Rattle.session.specs.Promise.{held, Answered, Played};
ghost use Rattle.sift.specs.Sifted.{Sifted};

use crate::turn::{Answer, Buffers, Call, Turn};
use layers::entries::Entries;
use network::Network;
use sift::refusal::SiftRefusal;
use sift::sift::sift_slices;

// A sift in buffers of its own.
fn sift_in<N: Network>(network: &N, buffers: &mut Buffers) -> Result<(), SiftRefusal>
    ensures { Sifted (N.Network.meaning network.now) (held buffers.old) (held buffers.new) result }
{
    sift_slices(
        network,
        &mut buffers.flow,
        &mut buffers.verdicts,
        &mut buffers.bottleneck,
        &mut buffers.marks,
        &mut buffers.nodes,
        &mut buffers.steps,
    )
}

// Makes one call, and puts its answer beside it.
fn make<N: Network>(layer: &mut Entries<N>, turn: &mut Turn)
    requires { Standing (N.Network.meaning layer.old.below) (entries_of layer.old.column) }
    ensures below { layer.new.below ≡ layer.old.below }
    ensures stands { Standing (N.Network.meaning layer.old.below) (entries_of layer.new.column) }
    ensures column { entries_of layer.new.column ≡ after_call (N.Network.meaning layer.old.below) (entries_of layer.old.column) turn.old.call }
    ensures answered { Answered (N.Network.meaning layer.old.below) (entries_of layer.old.column) turn.old.call turn.new }
{
    let answer = match &mut turn.call {
        Call::Lay(entry) => Answer::Laid(layer.lay(*entry)),
        Call::Undo => Answer::Undone(layer.undo()),
        Call::Sift(buffers) => Answer::Sifted(sift_in(layer, buffers)),
    };
    turn.answer = Some(answer);
}

// Makes the calls in order on a fresh layer, and hands the network back.
pub(crate) fn play<N: Network>(network: N, turns: &mut [Turn]) -> N
    ensures back { result ≡ network }
    ensures played { Played (N.Network.meaning network) turns.old turns.new }
{
    let mut layer = Entries::new(network);
    for turn in turns.iter_mut() {
        make(&mut layer, turn);
    }
    layer.into_inner()
}
