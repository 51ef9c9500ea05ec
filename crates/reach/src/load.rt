// What the lines of a network in memory carry, each within its bounds: what a search goes over.
ghost use Rattle.std.specs.Prelude.{◌≡◌, length};
ghost use Rattle.network.specs.Net.{size};
ghost use Rattle.network.specs.Flow.{at};
ghost use Rattle.flows.specs.Bounds.{Within};
ghost use Rattle.index.specs.Graph.{net};

use index::graph::Graph;

#[derive(Clone, Copy)]
pub struct Load<'a> {
    pub graph: Graph<'a>,
    pub flow: &'a [u32],
    ghost long: { length flow.now ≡ size (net graph) },
    ghost bounds: { Within (net graph) (at flow.now) },
}
