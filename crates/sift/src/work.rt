// The sift in memory of exactly the size that it needs.
ghost use Rattle.std.specs.Prelude.{◌≡◌, length};
ghost use Rattle.network.specs.Flow.{Lawful};
ghost use Rattle.index.specs.Graph.{net};
ghost use Rattle.sift.specs.Memory.{SameLoan, contents};
ghost use Rattle.sift.specs.Sifted.{Done, Accepted};
ghost use Rattle.sift.specs.Workspace.{Blank, Cleared, Exact};

use crate::memory::Memory;
use crate::refusal::SiftRefusal;
use circulation::circulate::circulate;
use index::graph::Graph;
use index::step::Step;
use verdicts::lines::judge_lines;

// The verdicts of a lawful flow, and blank memory beside it.
fn show_flow(graph: &Graph<'_>, memory: &mut Memory<'_>)
    requires lawful { Lawful (net graph.now) memory.old.flow.now }
    requires exact { Exact (net graph.now) (contents memory.old) }
    ensures lent { SameLoan memory.old memory.new }
    ensures accepted { Accepted (net graph.now) (contents memory.new) }
    ensures cleared { Cleared (net graph.now) (contents memory.new) }
{
    let flow = &mut *memory.flow;
    let verdicts = &mut *memory.verdicts;
    let marks = &mut *memory.marks;
    let nodes = &mut *memory.nodes;
    judge_lines(graph, flow, verdicts, marks, nodes);
    memory.bottleneck.fill(0);
    memory.nodes.fill(0);
    memory.steps.fill(Step::default());
}

// Blank memory beside a bottleneck.
fn show_none(memory: &mut Memory<'_>)
    ensures lent { SameLoan memory.old memory.new }
    ensures bottleneck { memory.new.bottleneck.now ≡ memory.old.bottleneck.now }
    ensures blank { Blank (contents memory.old) (contents memory.new) }
{
    memory.flow.fill(0);
    memory.verdicts.fill(0);
    memory.marks.fill(0);
    memory.nodes.fill(0);
    memory.steps.fill(Step::default());
}

// Sifts a network in memory; the four slices are the search's own.
pub(crate) fn sift_graph(
    graph: &Graph<'_>,
    distance: &mut [u16],
    cursor: &mut [u16],
    spare: &mut [u32],
    lack: &mut [u32],
    memory: &mut Memory<'_>,
) -> Result<(), SiftRefusal>
    requires exact { Exact (net graph.now) (contents memory.old) }
    requires distance { length distance.old ≡ graph.now.nodes }
    requires cursor { length cursor.old ≡ graph.now.nodes }
    requires spare { length spare.old ≡ graph.now.nodes }
    requires lack { length lack.old ≡ graph.now.nodes }
    ensures lent { SameLoan memory.old memory.new }
    ensures done { Done (net graph.now) (contents memory.new) result }
{
    match circulate(
        graph,
        memory.flow,
        memory.bottleneck,
        memory.nodes,
        memory.steps,
        distance,
        cursor,
        spare,
        lack,
    ) {
        Ok(()) => {
            show_flow(graph, memory);
            Ok(())
        }
        Err(bottleneck) => {
            show_none(memory);
            Err(SiftRefusal::from(bottleneck))
        }
    }
}
