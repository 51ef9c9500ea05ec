// A flow on its way to a lawful one: what each line carries, and what each node has to spare and lacks.
ghost use Rattle.std.specs.Prelude.{◌≡◌, length};
ghost use Rattle.network.specs.Flow.{at};
ghost use Rattle.flows.specs.Bounds.{Mending};
ghost use Rattle.index.specs.Graph.{net};

use index::graph::Graph;

#[derive(Drop)]
pub struct Repair<'a, 'g> {
    pub graph: Graph<'g>,
    pub flow: &'a mut [u32],
    pub spare: &'a mut [u32],
    pub lack: &'a mut [u32],
    ghost mending: { Mending (net graph) flow.now (at spare.now) (at lack.now) },
    ghost spares: { length spare.now ≡ graph.nodes },
    ghost lacks: { length lack.now ≡ graph.nodes },
}
