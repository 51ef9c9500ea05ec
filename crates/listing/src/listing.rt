// The listing call: memory of any length and content, a legend of any make and its labels.
ghost use Rattle.std.specs.Prelude.{◌≡◌, ◌≤◌, Decides, length};
ghost use Rattle.listing.specs.Listing.{ListsOn, ShortOf};
ghost use Rattle.listing.specs.Shows.{Matching};
ghost use Rattle.rendering.specs.Render.{render};
ghost use Rattle.rendering.specs.Tables.{table_of};
ghost use Rattle.sift.specs.Memory.{SameLoan, contents};
ghost use Rattle.text.specs.Placed.{Placed};

use crate::refusal::ListingRefusal;
use contents::labels::Labels;
use index::step::Step;
use network::legend::Legend;
use rendering::shown::Shown;
use sift::memory::Memory;
use sift::sift::sift;

// Room for any listing.
pub const LISTING_TEXT: usize = 40960;

// Whether the text or a buffer of the sift is short.
fn is_short<L: Legend>(legend: &L, text: &[u8], memory: &Memory<'_>) -> bool
    ensures { Decides result (ShortOf (L.Network.meaning legend.now) text.now (contents memory.now)) }
{
    text.len() < LISTING_TEXT || memory.is_short(legend)
}

// Whether legend and labels have as many parts and as many signs.
fn matches<L: Legend, B: Labels>(legend: &L, labels: &B) -> bool
    ensures { Decides result (Matching (L.Legend.key legend.now) (B.Labels.labelled labels.now)) }
{
    legend.parts() == labels.parts() && legend.signs() == labels.signs()
}

// Writes the line of each part, as the memory of an accepted sift shows it.
fn put_shown<L: Legend, B: Labels>(
    legend: &L,
    labels: &B,
    memory: &Memory<'_>,
    text: &mut [u8],
) -> usize
    requires { 40960 ≤ length text.old }
    ensures { Placed text.old 0 (render (B.Labels.labelled labels.now) (table_of (L.Legend.key legend.now) memory.now.flow.now memory.now.verdicts.now)) text.new result }
{
    let shown = Shown {
        legend,
        labels,
        flow: memory.flow,
        verdicts: memory.verdicts,
    };
    shown.put_parts(text)
}

// Sifts the legend and writes a line for each part at the front of the text; tells how long they are. Refused with no change where
// a buffer is short, or where the labels are not those of the legend; without a lawful flow the text stays as it was.
pub fn listing<L: Legend, B: Labels>(
    legend: &L,
    labels: &B,
    text: &mut [u8],
    memory: &mut Memory<'_>,
) -> Result<usize, ListingRefusal>
    ensures lent { SameLoan memory.old memory.new }
    ensures lists { ListsOn (L.Network.meaning legend.now) (L.Legend.key legend.now) (B.Labels.labelled labels.now) text.old text.new (contents memory.old) (contents memory.new) result }
{
    if is_short(legend, text, memory) {
        return Err(ListingRefusal::Short);
    }
    if !matches(legend, labels) {
        return Err(ListingRefusal::Differ);
    }
    sift(legend, memory)?;
    Ok(put_shown(legend, labels, memory, text))
}

// The same in six slices that come one by one, for who lends a Vec or a part of a slice: the reason is told at `sift_slices`.
pub fn listing_slices<L: Legend, B: Labels>(
    legend: &L,
    labels: &B,
    text: &mut [u8],
    flow: &mut [u32],
    verdicts: &mut [u8],
    bottleneck: &mut [u8],
    marks: &mut [u8],
    nodes: &mut [u16],
    steps: &mut [Step],
) -> Result<usize, ListingRefusal>
    ensures { ListsOn (L.Network.meaning legend.now) (L.Legend.key legend.now) (B.Labels.labelled labels.now) text.old text.new (record { flow = flow.old; verdicts = verdicts.old; bottleneck = bottleneck.old; marks = marks.old; nodes = nodes.old; steps = steps.old }) (record { flow = flow.exit.now; verdicts = verdicts.new; bottleneck = bottleneck.new; marks = marks.new; nodes = nodes.new; steps = steps.new }) result }
{
    let mut memory = Memory {
        flow,
        verdicts,
        bottleneck,
        marks,
        nodes,
        steps,
    };
    listing(legend, labels, text, &mut memory)
}
