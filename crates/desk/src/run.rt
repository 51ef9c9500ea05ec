// A whole list of acts.
ghost use Rattle.std.specs.Prelude.{IfOk};
ghost use Rattle.desk.specs.Transcript.{Transcript};

use crate::step::step;
use contents::act::Act;
use contents::labels::Labels;
use layers::entries::Entries;
use network::legend::Legend;
use std::alloc::{AllocError, Global};

// Runs the acts in order on a fresh entries layer over the legend; a refused act does not end the run. Want of memory for the
// transcript is the one other answer.
pub fn run<L: Legend + Drop, B: Labels>(
    heap: Global,
    legend: L,
    labels: &B,
    acts: &[Act],
) -> Result<Vec<u8>, AllocError>
    ensures { IfOk result (λ v. Transcript (L.Network.meaning legend) (L.Legend.key legend) (B.Labels.labelled labels.now) acts.now v.items) }
{
    let mut layer = Entries::new(legend);
    let mut transcript = Vec::new(heap);
    for (k, act) in acts.iter().enumerate() {
        step(&mut layer, labels, k + 1, *act, &mut transcript)?;
    }
    Ok(transcript)
}
