// How much memory a network needs.
ghost use Rattle.std.specs.Prelude.{Decides};
ghost use Rattle.sift.specs.Memory.{contents};
ghost use Rattle.sift.specs.Workspace.{Short};

use super::Memory;
use network::Network;

impl Memory<'_> {
    // Whether one of the six is shorter than the network needs.
    pub fn is_short<N: Network>(&self, network: &N) -> bool
        ensures { Decides result (Short (N.Network.meaning network.now) (contents self.now)) }
    {
        let n = network.nodes();
        let a = network.lines();
        self.flow.len() < a
            || self.verdicts.len() < a
            || self.bottleneck.len() < n
            || self.marks.len() < n
            || self.nodes.len() < n
            || self.steps.len() < n
    }
}
