// The bottleneck that a search leaves when it reaches no node with something to spare.
ghost use Rattle.std.specs.Prelude.{◌≡◌, ℕ, ◌<◌, not, ◌&&◌, length, if◌then◌else◌, nat_lt, slice_index};
ghost use Rattle.network.specs.Flow as flows;
ghost use Rattle.index.specs.Graph.{net};
ghost use Rattle.reach.specs.Levels.{level};
ghost use Rattle.circulation.specs.Answers.{members};

use crate::bottleneck::Bottleneck;
use index::graph::Graph;

// Marks the nodes that were not reached.
fn mark_unreached(distance: &[u16], bytes: &mut [u8])
    requires { length distance.now ≡ length bytes.old }
    ensures { (v : ℕ) → v < length bytes.old → slice_index bytes.new v ≡ (if nat_lt (level distance.now v) (length bytes.old) then 0 else 1) }
{
    let nodes = bytes.len();
    // with places, since in a zip of bytes that are written a proof knows nothing of what was written
    for (node, byte) in bytes.iter_mut().enumerate() {
        *byte = u8::from(distance[node] as usize >= nodes);
    }
}

// What a line between these nodes counts: its amount where it leads from inside the set to outside.
fn crossing(bytes: &[u8], inside: usize, outside: usize, amount: u32) -> u32
    requires inside { inside < length bytes.now }
    requires outside { outside < length bytes.now }
    ensures { result ≡ (if members bytes.now inside && not (members bytes.now outside) then amount else 0) }
{
    if bytes[inside] == 1 && bytes[outside] != 1 {
        amount
    } else {
        0
    }
}

// What the set must take in, and what can leave it.
fn sum_bounds(graph: &Graph<'_>, bytes: &[u8]) -> Bottleneck
    requires { length bytes.now ≡ graph.now.nodes }
    ensures demand { result.demand ≡ flows.demand (net graph.now) (members bytes.now) }
    ensures supply { result.supply ≡ flows.supply (net graph.now) (members bytes.now) }
{
    let mut demand = 0;
    let mut supply = 0;
    for line in graph.lines() {
        let (tail, head) = (line.tail as usize, line.head as usize);
        demand += crossing(bytes, head, tail, line.least as u32);
        supply += crossing(bytes, tail, head, line.most as u32);
    }
    Bottleneck { demand, supply }
}

// Shows the nodes that were not reached, with their demand and their supply.
pub fn show_unreached(graph: &Graph<'_>, distance: &[u16], bytes: &mut [u8]) -> Bottleneck
    requires distance { length distance.now ≡ graph.now.nodes }
    requires bytes { length bytes.old ≡ graph.now.nodes }
    ensures marks { (v : ℕ) → v < graph.now.nodes → slice_index bytes.new v ≡ (if nat_lt (level distance.now v) graph.now.nodes then 0 else 1) }
    ensures demand { result.demand ≡ flows.demand (net graph.now) (members bytes.new) }
    ensures supply { result.supply ≡ flows.supply (net graph.now) (members bytes.new) }
{
    mark_unreached(distance, bytes);
    sum_bounds(graph, bytes)
}
