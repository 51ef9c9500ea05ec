// The flow to start from: every line at its least, and what that leaves each node to spare or lacking.
ghost use Rattle.std.specs.Prelude.{◌≡◌, ℕ, ◌+◌, ◌<◌, length, slice_set};
ghost use Rattle.network.specs.Net.{line, least};
ghost use Rattle.network.specs.Flow.{at};
ghost use Rattle.network.specs.Records.{net_of};
ghost use Rattle.flows.specs.Bounds.{Mending};
ghost use Rattle.index.specs.Graph.{net};
ghost use Rattle.circulation.specs.Gathering.{Gathered, SameDifference};

use index::graph::Graph;
use network::line_record::LineRecord;

// Every line carries its least.
fn carry_least(lines: &[LineRecord], flow: &mut [u32])
    requires { length flow.old ≡ length lines.now }
    ensures { (i : ℕ) → i < length lines.now → at flow.new i ≡ least (line (net_of 0 lines.now) i) }
{
    // with places, here and below: in a zip of amounts that are written a proof knows nothing of what was written
    for (place, amount) in flow.iter_mut().enumerate() {
        *amount = lines[place].least as u32;
    }
}

fn add(amounts: &mut [u32], node: usize, amount: u32)
    requires inside { node < length amounts.old }
    requires fits { at amounts.old node + amount < 4294967296 }
    ensures { amounts.new ≡ slice_set amounts.old node (at amounts.old node + amount) }
{
    amounts[node] += amount;
}

// What enters and what leaves each node.
fn gather(graph: &Graph<'_>, entered: &mut [u32], left: &mut [u32])
    requires entered { length entered.old ≡ graph.now.nodes }
    requires left { length left.old ≡ graph.now.nodes }
    ensures { Gathered (net graph.now) (length graph.now.lines.now) entered.new left.new }
{
    entered.fill(0);
    left.fill(0);
    for line in graph.lines() {
        add(entered, line.head as usize, line.least as u32);
        add(left, line.tail as usize, line.least as u32);
    }
}

// Takes from both amounts of each node what they share.
fn settle(spare: &mut [u32], lack: &mut [u32])
    requires { length lack.old ≡ length spare.old }
    ensures { SameDifference (length spare.old) spare.old lack.old spare.new lack.new }
{
    for (node, amount) in spare.iter_mut().enumerate() {
        let shared = (*amount).min(lack[node]);
        *amount -= shared;
        lack[node] -= shared;
    }
}

pub fn start(graph: &Graph<'_>, flow: &mut [u32], spare: &mut [u32], lack: &mut [u32])
    requires flow { length flow.old ≡ length graph.now.lines.now }
    requires spare { length spare.old ≡ graph.now.nodes }
    requires lack { length lack.old ≡ graph.now.nodes }
    ensures { Mending (net graph.now) flow.new (at spare.new) (at lack.new) }
{
    carry_least(graph.lines(), flow);
    gather(graph, spare, lack);
    settle(spare, lack);
}
