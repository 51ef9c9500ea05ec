// A query: the listing in memory of its own.
ghost use Rattle.desk.specs.Steps.{ListsIn};

use contents::labels::Labels;
use index::step::Step;
use listing::listing::listing;
use listing::refusal::ListingRefusal;
use network::legend::Legend;
use sift::memory::Memory;

// Lists with the memory that the largest network needs.
pub(crate) fn list<L: Legend, B: Labels>(
    legend: &L,
    labels: &B,
    text: &mut [u8],
) -> Result<usize, ListingRefusal>
    ensures { ListsIn (L.Network.meaning legend.now) (L.Legend.key legend.now) (B.Labels.labelled labels.now) text.old text.new result }
{
    let mut flow = [0u32; 16384];
    let mut verdicts = [0u8; 16384];
    let mut bottleneck = [0u8; 1024];
    let mut marks = [0u8; 1024];
    let mut nodes = [0u16; 1024];
    let mut steps = [Step::default(); 1024];
    let mut memory = Memory {
        flow: &mut flow,
        verdicts: &mut verdicts,
        bottleneck: &mut bottleneck,
        marks: &mut marks,
        nodes: &mut nodes,
        steps: &mut steps,
    };
    listing(legend, labels, text, &mut memory)
}
