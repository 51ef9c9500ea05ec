// One act: its line, and for a query the listing behind it, appended to the transcript.
ghost use Rattle.std.specs.Prelude.{◌≡◌, Some, None};
ghost use Rattle.acts.specs.Changes.{change_of};
ghost use Rattle.layers.specs.Column.{entries_of};
ghost use Rattle.layers.specs.Present.{Standing};
ghost use Rattle.desk.specs.Steps.{Steps};

use crate::append::{append_accepted, append_front, append_refused};
use crate::query::list;
use acts::change::{Change, change_of};
use acts::line::{ACT_LINE, act_line};
use contents::act::Act;
use contents::labels::Labels;
use layers::entries::Entries;
use listing::listing::LISTING_TEXT;
use network::legend::Legend;
use std::alloc::AllocError;

// A change of the entries.
fn change<L: Legend, B: Labels>(
    layer: &mut Entries<L>,
    labels: &B,
    number: usize,
    change: Change,
    transcript: &mut Vec<u8>,
) -> Result<(), AllocError>
    requires { Standing (L.Network.meaning layer.old.below) (entries_of layer.old.column) }
    ensures below { layer.new.below ≡ layer.old.below }
    ensures steps { Steps (L.Network.meaning layer.old.below) (L.Legend.key layer.old.below) (B.Labels.labelled labels.now) number (Some change) (entries_of layer.old.column) (entries_of layer.new.column) transcript.old.items transcript.new.items result }
{
    let mut line = [0u8; ACT_LINE];
    match act_line(layer, number, change, &mut line) {
        Ok(written) => append_front(transcript, &line, written),
        Err(_) => unreachable(),
    }
}

// A query. It is asked as `change` is, but reads the layer alone.
fn query<L: Legend, B: Labels>(
    layer: &Entries<L>,
    labels: &B,
    number: usize,
    transcript: &mut Vec<u8>,
) -> Result<(), AllocError>
    requires { Standing (L.Network.meaning layer.now.below) (entries_of layer.now.column) }
    ensures { Steps (L.Network.meaning layer.now.below) (L.Legend.key layer.now.below) (B.Labels.labelled labels.now) number None (entries_of layer.now.column) (entries_of layer.now.column) transcript.old.items transcript.new.items result }
{
    let mut text = [0u8; LISTING_TEXT];
    match list(layer, labels, &mut text) {
        Ok(written) => {
            append_accepted(transcript, number)?;
            append_front(transcript, &text, written)
        }
        Err(refusal) => append_refused(transcript, number, refusal.number()),
    }
}

// An act of either kind.
pub(crate) fn step<L: Legend, B: Labels>(
    layer: &mut Entries<L>,
    labels: &B,
    number: usize,
    act: Act,
    transcript: &mut Vec<u8>,
) -> Result<(), AllocError>
    requires { Standing (L.Network.meaning layer.old.below) (entries_of layer.old.column) }
    ensures below { layer.new.below ≡ layer.old.below }
    ensures steps { Steps (L.Network.meaning layer.old.below) (L.Legend.key layer.old.below) (B.Labels.labelled labels.now) number (change_of act) (entries_of layer.old.column) (entries_of layer.new.column) transcript.old.items transcript.new.items result }
{
    match change_of(act) {
        Some(asked) => change(layer, labels, number, asked, transcript),
        None => query(layer, labels, number, transcript),
    }
}
