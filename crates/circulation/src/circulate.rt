// The search for a lawful flow: start at every line's least, and push from the nodes with something to spare to those that
// lack something, in phases, until nothing is to spare or no way leads on.
ghost use Rattle.std.specs.Prelude.{◌≡◌, length};
ghost use Rattle.index.specs.Graph.{net};
ghost use Rattle.circulation.specs.Answers.{Right, Spares, Source};

use crate::bottleneck::Bottleneck;
use crate::cut::show_unreached;
use crate::start::start;
use augment::repair::Repair;
use index::graph::Graph;
use index::step::Step;

// Whether any node has something to spare.
fn has_spare(repair: &Repair<'_, '_>) -> bool
    ensures { Spares repair.now.graph.nodes repair.now.spare.now result }
{
    repair.spare.iter().any(|amount| *amount > 0)
}

// The first reached node with something to spare.
fn find_source(repair: &Repair<'_, '_>, distance: &[u16]) -> Option<usize>
    requires { length distance.now ≡ repair.now.graph.nodes }
    ensures { Source repair.now.graph.nodes repair.now.spare.now distance.now result }
{
    for (node, level) in distance.iter().enumerate() {
        if repair.spare[node] > 0 && (*level as usize) < distance.len() {
            return Some(node);
        }
    }
    None
}

// Pushes until nothing is to spare, or marks in `bottleneck` the nodes from which no way leads to a lacking one.
fn mend(
    repair: &mut Repair<'_, '_>,
    bottleneck: &mut [u8],
    queue: &mut [u16],
    walk: &mut [Step],
    distance: &mut [u16],
    cursor: &mut [u16],
) -> Result<(), Bottleneck>
    requires bottleneck { length bottleneck.old ≡ repair.old.graph.nodes }
    requires queue { length queue.old ≡ repair.old.graph.nodes }
    requires walk { length walk.old ≡ repair.old.graph.nodes }
    requires distance { length distance.old ≡ repair.old.graph.nodes }
    requires cursor { length cursor.old ≡ repair.old.graph.nodes }
    ensures lent { repair.new.flow.ghost_name ≡ repair.old.flow.ghost_name }
    ensures right { Right (net repair.old.graph) repair.new.flow.now bottleneck.new result }
{
    let graph = repair.graph;
    while has_spare(repair) {
        repair.level(queue, distance);
        match find_source(repair, distance) {
            Some(source) => repair.augment(distance, cursor, walk, source),
            None => return Err(show_unreached(&graph, distance, bottleneck)),
        }
    }
    Ok(())
}

// Nine parameters: the memory of a sift, which is lent, and four slices of the search's own, which are made for one call.
// Leaves a lawful flow in `flow`, or in `bottleneck` a byte for each node, 1 for those of a bottleneck. The other buffers are
// the search's own.
pub fn circulate(
    graph: &Graph<'_>,
    flow: &mut [u32],
    bottleneck: &mut [u8],
    queue: &mut [u16],
    walk: &mut [Step],
    distance: &mut [u16],
    cursor: &mut [u16],
    spare: &mut [u32],
    lack: &mut [u32],
) -> Result<(), Bottleneck>
    requires flow { length flow.old ≡ length graph.now.lines.now }
    requires bottleneck { length bottleneck.old ≡ graph.now.nodes }
    requires queue { length queue.old ≡ graph.now.nodes }
    requires walk { length walk.old ≡ graph.now.nodes }
    requires distance { length distance.old ≡ graph.now.nodes }
    requires cursor { length cursor.old ≡ graph.now.nodes }
    requires spare { length spare.old ≡ graph.now.nodes }
    requires lack { length lack.old ≡ graph.now.nodes }
    ensures { Right (net graph.now) flow.new bottleneck.new result }
{
    start(graph, flow, spare, lack);
    let mut repair = Repair {
        graph: *graph,
        flow,
        spare,
        lack,
    };
    mend(&mut repair, bottleneck, queue, walk, distance, cursor)
}
