// Runs one change on an entries layer over any legend.
ghost use Rattle.acts.specs.Changes.{ActsOn, asked, on_line, take_back};

use crate::change::Change;
use crate::refusal::ActRefusal;
use layers::entries::Entries;
use layers::entry::{Bound, Entry};
use network::legend::Legend;

// Lays an entry on the line that the legend answers.
fn lay_on<L: Legend>(
    layer: &mut Entries<L>,
    line: Option<usize>,
    bound: Bound,
    amount: u16,
) -> Result<(), ActRefusal>
    ensures { ActsOn L.Network.meaning (on_line line bound amount) layer.old layer.new result }
{
    let Some(line) = line else {
        return Err(ActRefusal::NoPlace);
    };
    layer.lay(Entry {
        line,
        bound,
        amount,
    })?;
    Ok(())
}

// The last entry goes.
fn take_back<L: Legend>(layer: &mut Entries<L>) -> Result<(), ActRefusal>
    ensures { ActsOn L.Network.meaning take_back layer.old layer.new result }
{
    layer.undo()?;
    Ok(())
}

// Runs a change. A refusal changes nothing.
pub fn act<L: Legend>(layer: &mut Entries<L>, change: Change) -> Result<(), ActRefusal>
    ensures { ActsOn L.Network.meaning (asked (L.Legend.key layer.old.below) change) layer.old layer.new result }
{
    let (line, bound, amount) = match change {
        Change::Fix(part, sign) => (layer.pair_line(part, sign), Bound::AtLeast, 1),
        Change::Bar(part, sign) => (layer.pair_line(part, sign), Bound::AtMost, 0),
        Change::Require(part) => (layer.part_line(part), Bound::AtLeast, 1),
        Change::LeaveOut(part) => (layer.part_line(part), Bound::AtMost, 0),
        Change::Undo => return take_back(layer),
    };
    lay_on(layer, line, bound, amount)
}
