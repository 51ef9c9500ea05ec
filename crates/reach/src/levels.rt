// Levels.
ghost use Rattle.std.specs.Prelude.{◌≡◌, ◌+◌, ◌<◌, ◌≤◌, length, nat_lt, slice_set};
ghost use Rattle.network.specs.Net.{size};
ghost use Rattle.network.specs.Flow.{at};
ghost use Rattle.index.specs.Graph.{net};
ghost use Rattle.reach.specs.Room.{room_of, reversed};
ghost use Rattle.reach.specs.Levels.{Finished, Levelled, Near};
ghost use Rattle.reach.specs.Search.{Front, Grown, Seeded, Spreading};

use crate::load::Load;
use crate::room::{reverse, room};
use buffers::places::Places;
use index::step::Step;

// Reaches a node: it stands at this level, and is queued. The queue and the levels stand in no struct of their own: what ties them
// names places and steps, which a type holds only as a fact that they are there, so that each visit would have to find them again.
fn enqueue(queue: &mut Places<'_, u16>, distance: &mut [u16], node: usize, level: usize)
    requires inside { node < length distance.old }
    requires room { queue.old.len < length queue.old.cells.now }
    requires node { node < 65536 }
    requires level { level < 65536 }
    ensures count { queue.new.len ≡ queue.old.len + 1 }
    ensures cells { queue.new.cells.now ≡ slice_set queue.old.cells.now queue.old.len node }
    ensures distance { distance.new ≡ slice_set distance.old node level }
{
    distance[node] = level as u16;
    let _ = queue.push(node as u16);
}

// Whether there is room to come back over the step.
fn can_come(load: &Load<'_>, step: Step) -> bool
    requires inside { step.line < size (net load.now.graph) }
    requires direction { step.direction < 2 }
    ensures { result ≡ nat_lt 0 (room_of (net load.now.graph) (at load.now.flow.now) (reversed step)) }
{
    room(reverse(step), load.graph.lines(), load.flow) > 0
}

// Goes through the steps that leave a node, and reaches the nodes that can send more over them.
fn visit(load: &Load<'_>, queue: &mut Places<'_, u16>, distance: &mut [u16], node: usize)
    requires front { Front (net load.now.graph) (at load.now.flow.now) queue.old.cells.now queue.old.len distance.old }
    requires node { node < load.now.graph.nodes }
    requires near { Near (net load.now.graph) distance.old node }
    ensures front { Front (net load.now.graph) (at load.now.flow.now) queue.new.cells.now queue.new.len distance.new }
    ensures grown { Grown (net load.now.graph) queue.old.cells.now queue.old.len distance.old queue.new.cells.now queue.new.len distance.new }
    ensures finished { Finished (net load.now.graph) (at load.now.flow.now) distance.new node }
{
    let next = distance[node] as usize + 1;
    for &step in load.graph.row(node) {
        let other = step.target(load.graph.lines());
        if distance[other] as usize >= load.graph.nodes() && can_come(load, step) {
            enqueue(queue, distance, other, next);
        }
    }
}

// Reaches the nodes that lack something.
fn seed(lack: &[u32], queue: &mut Places<'_, u16>, distance: &mut [u16])
    requires few { length lack.now ≤ 1024 }
    requires none { Seeded (length lack.now) (at lack.now) 0 queue.old.cells.now queue.old.len distance.old }
    ensures { Seeded (length lack.now) (at lack.now) (length lack.now) queue.new.cells.now queue.new.len distance.new }
{
    for (node, amount) in lack.iter().enumerate() {
        if *amount > 0 {
            enqueue(queue, distance, node, 0);
        }
    }
}

// Visits the reached nodes in the order in which they are reached, until all are visited.
fn spread(load: &Load<'_>, queue: &mut Places<'_, u16>, distance: &mut [u16])
    requires { Front (net load.now.graph) (at load.now.flow.now) queue.old.cells.now queue.old.len distance.old }
    ensures { Spreading (net load.now.graph) (at load.now.flow.now) queue.old.cells.now queue.old.len distance.old queue.new.len queue.new.cells.now queue.new.len distance.new }
{
    // by place, since the queue grows while it is gone through
    let mut done = 0;
    while let Some(node) = queue.get(done) {
        visit(load, queue, distance, node as usize);
        done += 1;
    }
}

// Gives each node from which a way with room leads to a lacking node its level, and the others the number of nodes.
pub fn reach(load: &Load<'_>, lack: &[u32], queue: &mut [u16], distance: &mut [u16])
    requires lack { length lack.now ≡ load.now.graph.nodes }
    requires queue { length queue.old ≡ load.now.graph.nodes }
    requires distance { length distance.old ≡ load.now.graph.nodes }
    ensures { Levelled (net load.now.graph) (at load.now.flow.now) (at lack.now) distance.new }
{
    distance.fill(load.graph.nodes() as u16);
    let mut list = Places::new(queue);
    seed(lack, &mut list, distance);
    spread(load, &mut list, distance);
}
