// The public call: memory of any length and content, and a network of any make.
ghost use Rattle.std.specs.Prelude.{◌≡◌, ℕ, ◌+◌, ◌*◌, ◌<◌, ◌≤◌, length};
ghost use Rattle.network.specs.Net.{size};
ghost use Rattle.sift.specs.Memory.{SameLoan, contents};
ghost use Rattle.sift.specs.Sifted.{Done, Sifted};
ghost use Rattle.sift.specs.Workspace.{Exact};

use crate::memory::Memory;
use crate::refusal::SiftRefusal;
use crate::work::sift_graph;
use index::copy::copy_lines;
use index::graph::Graph;
use index::step::Step;
use network::Network;
use network::line_record::LineRecord;

// Sifts in working memory for at most LINES lines, whose steps are STEPS. Never inlined, so that a small network does not pay for the
// memory of a large one.
#[inline(never)]
fn sift_within<N: Network, const LINES: usize, const STEPS: usize>(
    network: &N,
    memory: &mut Memory<'_>,
) -> Result<(), SiftRefusal>
    requires lines { size (N.Network.meaning network.now) ≤ LINES }
    requires index { 2 * LINES ≤ STEPS }
    requires room { (LINES ≤ 16384) × (STEPS ≤ 32768) }
    requires exact { Exact (N.Network.meaning network.now) (contents memory.old) }
    ensures lent { SameLoan memory.old memory.new }
    ensures done { Done (N.Network.meaning network.now) (contents memory.new) result }
{
    let n = memory.nodes.len();
    let a = memory.flow.len();
    let mut lines = [LineRecord::default(); LINES];
    let mut starts = [0u16; 1025];
    let mut steps = [Step::default(); STEPS];
    let mut distance = [0u16; 1024];
    let mut cursor = [0u16; 1024];
    let mut spare = [0u32; 1024];
    let mut lack = [0u32; 1024];
    copy_lines(network, &mut lines[..a]);
    let graph = Graph::new(n, &lines[..a], &mut starts[..n + 1], &mut steps[..2 * a]);
    sift_graph(
        &graph,
        &mut distance[..n],
        &mut cursor[..n],
        &mut spare[..n],
        &mut lack[..n],
        memory,
    )
}

// Sifts in working memory of a size class: small networks need not wait until the memory of large ones is blank. A one-series job
// has at most 4,225 lines, the last included.
fn sift_exact<N: Network>(network: &N, memory: &mut Memory<'_>) -> Result<(), SiftRefusal>
    requires { Exact (N.Network.meaning network.now) (contents memory.old) }
    ensures lent { SameLoan memory.old memory.new }
    ensures done { Done (N.Network.meaning network.now) (contents memory.new) result }
{
    if memory.flow.len() <= 512 {
        sift_within::<N, 512, 1024>(network, memory)
    } else if memory.flow.len() <= 4352 {
        sift_within::<N, 4352, 8704>(network, memory)
    } else {
        sift_within::<N, 16384, 32768>(network, memory)
    }
}

// Sifts in six slices of just the right size. They come one by one, for the reason told at `sift_slices`.
fn sift_parts<N: Network>(
    network: &N,
    flow: &mut [u32],
    verdicts: &mut [u8],
    bottleneck: &mut [u8],
    marks: &mut [u8],
    nodes: &mut [u16],
    steps: &mut [Step],
) -> Result<(), SiftRefusal>
    requires { Exact (N.Network.meaning network.now) (record { flow = flow.old; verdicts = verdicts.old; bottleneck = bottleneck.old; marks = marks.old; nodes = nodes.old; steps = steps.old }) }
    ensures { Done (N.Network.meaning network.now) (record { flow = flow.new; verdicts = verdicts.new; bottleneck = bottleneck.new; marks = marks.new; nodes = nodes.new; steps = steps.new }) result }
{
    let mut memory = Memory {
        flow,
        verdicts,
        bottleneck,
        marks,
        nodes,
        steps,
    };
    sift_exact(network, &mut memory)
}

// A lawful flow and a verdict for each line, or a bottleneck; refused with no change where a buffer is short.
pub fn sift<N: Network>(network: &N, memory: &mut Memory<'_>) -> Result<(), SiftRefusal>
    ensures lent { SameLoan memory.old memory.new }
    ensures sifted { Sifted (N.Network.meaning network.now) (contents memory.old) (contents memory.new) result }
{
    if memory.is_short(network) {
        return Err(SiftRefusal::Short);
    }
    let n = network.nodes();
    let a = network.lines();
    let flow = &mut *memory.flow;
    let verdicts = &mut *memory.verdicts;
    let bottleneck = &mut *memory.bottleneck;
    let marks = &mut *memory.marks;
    let nodes = &mut *memory.nodes;
    let steps = &mut *memory.steps;
    sift_parts(
        network,
        &mut flow[..a],
        &mut verdicts[..a],
        &mut bottleneck[..n],
        &mut marks[..n],
        &mut nodes[..n],
        &mut steps[..n],
    )
}

// The same in six slices that come one by one. Who lends a Vec, or a part of a slice, into a struct in the same function does not
// learn what it holds afterwards.
pub fn sift_slices<N: Network>(
    network: &N,
    flow: &mut [u32],
    verdicts: &mut [u8],
    bottleneck: &mut [u8],
    marks: &mut [u8],
    nodes: &mut [u16],
    steps: &mut [Step],
) -> Result<(), SiftRefusal>
    ensures { Sifted (N.Network.meaning network.now) (record { flow = flow.old; verdicts = verdicts.old; bottleneck = bottleneck.old; marks = marks.old; nodes = nodes.old; steps = steps.old }) (record { flow = flow.new; verdicts = verdicts.new; bottleneck = bottleneck.new; marks = marks.new; nodes = nodes.new; steps = steps.new }) result }
{
    let mut memory = Memory {
        flow,
        verdicts,
        bottleneck,
        marks,
        nodes,
        steps,
    };
    sift(network, &mut memory)
}
