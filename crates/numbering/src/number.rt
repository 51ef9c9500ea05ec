// The numbering call: it sifts a legend and reads a numbering off the flow.
ghost use Rattle.std.specs.Prelude.{◌≡◌, ℕ, ◌+◌, ◌<◌, ◌≤◌, length};
ghost use Rattle.network.specs.Flow.{at};
ghost use Rattle.sift.specs.Memory.{SameLoan, contents};
ghost use Rattle.solutions.specs.Carried.{over_line, byte_of, numbering_of};
ghost use Rattle.numbering.specs.Numbered.{Numbers};
ghost use Rattle.numbering.specs.JobNumbered.{NumbersJobs};

use index::step::Step;
use network::legend::Legend;
use series::judge::UNSIGNED;
use sift::memory::Memory;
use sift::refusal::SiftRefusal;
use sift::sift::sift;

// What the flow carries over a line; where there is none, nothing.
fn carried(flow: &[u32], line: Option<usize>) -> u32
    ensures { result ≡ over_line flow.now line }
{
    line.and_then(|place| flow.get(place).copied()).unwrap_or(0)
}

// The lowest sign whose pair line carries more than 0, or else unsigned.
fn sign_of<L: Legend>(legend: &L, flow: &[u32], part: usize) -> u8
    ensures { result ≡ byte_of (L.Legend.key legend.now) flow.now part }
{
    match (0..legend.signs()).find(|sign| carried(flow, legend.pair_line(part, *sign)) > 0) {
        Some(sign) => sign as u8,
        None => UNSIGNED,
    }
}

// Writes the sign of each part, as the flow in the memory has it.
fn write_signs<L: Legend>(legend: &L, memory: &Memory<'_>, bytes: &mut [u8])
    requires { length bytes.old ≡ (L.Legend.key legend.now).parts }
    ensures { bytes.new ≡ numbering_of (L.Legend.key legend.now) memory.now.flow.now }
{
    for (part, byte) in bytes.iter_mut().enumerate() {
        *byte = sign_of(legend, memory.flow, part);
    }
}

// Sifts the legend and writes a byte for each part: the lowest sign whose pair line carries more than 0, else 255. Refused with no
// change where a buffer is short; where no lawful flow exists the bytes are left as they are.
pub fn number<L: Legend>(
    legend: &L,
    numbering: &mut [u8],
    memory: &mut Memory<'_>,
) -> Result<(), SiftRefusal>
    ensures lent { SameLoan memory.old memory.new }
    ensures numbers { Numbers (L.Network.meaning legend.now) (L.Legend.key legend.now) (contents memory.old) (contents memory.new) numbering.old numbering.new result }
    ensures jobs { NumbersJobs (L.Network.meaning legend.now) (L.Legend.key legend.now) (contents memory.new) numbering.new result }
{
    let parts = legend.parts();
    if numbering.len() < parts {
        return Err(SiftRefusal::Short);
    }
    sift(legend, memory)?;
    write_signs(legend, memory, &mut numbering[..parts]);
    Ok(())
}

// The same in six slices that come one by one, for who lends a Vec or a part of a slice: the reason is told at `sift_slices`.
pub fn number_slices<L: Legend>(
    legend: &L,
    numbering: &mut [u8],
    flow: &mut [u32],
    verdicts: &mut [u8],
    bottleneck: &mut [u8],
    marks: &mut [u8],
    nodes: &mut [u16],
    steps: &mut [Step],
) -> Result<(), SiftRefusal>
    ensures numbers { Numbers (L.Network.meaning legend.now) (L.Legend.key legend.now) (record { flow = flow.old; verdicts = verdicts.old; bottleneck = bottleneck.old; marks = marks.old; nodes = nodes.old; steps = steps.old }) (record { flow = flow.new; verdicts = verdicts.new; bottleneck = bottleneck.new; marks = marks.new; nodes = nodes.new; steps = steps.new }) numbering.old numbering.new result }
    ensures jobs { NumbersJobs (L.Network.meaning legend.now) (L.Legend.key legend.now) (record { flow = flow.new; verdicts = verdicts.new; bottleneck = bottleneck.new; marks = marks.new; nodes = nodes.new; steps = steps.new }) numbering.new result }
{
    let mut memory = Memory {
        flow,
        verdicts,
        bottleneck,
        marks,
        nodes,
        steps,
    };
    number(legend, numbering, &mut memory)
}
