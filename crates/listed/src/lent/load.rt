// Loading a listed network.
ghost use Rattle.std.specs.Prelude.{◌≡◌, true, [], Decides, MatchOption};
ghost use Rattle.network.specs.Net.{Fit};
ghost use Rattle.network.specs.Records.{net_of, line_of};
ghost use Rattle.listed.specs.Held.{held};
ghost use Rattle.listed.specs.Load.{AllFit, FirstUnfit, Loaded};

use super::Listed;
use crate::refusal::ListedRefusal;
use network::line_record::LineRecord;

// Whether a line fits a network of so many nodes.
fn fits(nodes: usize, line: LineRecord) -> bool
    ensures { Decides result (Fit nodes (line_of line)) }
{
    usize::from(line.tail) < nodes && usize::from(line.head) < nodes && line.least <= line.most
}

// The place of the first line that does not fit.
fn first_unfit(nodes: usize, records: &[LineRecord]) -> Option<usize>
    ensures { MatchOption result (AllFit (net_of nodes records.now)) (λ place. FirstUnfit (net_of nodes records.now) place) }
{
    records.iter().position(|line| !fits(nodes, *line))
}

impl<'a> Listed<'a> {
    // No nodes and no lines.
    pub fn new() -> Listed<'a>
        ensures { held result ≡ net_of 0 [] }
    {
        Listed {
            nodes: 0,
            records: &[],
        }
    }

    // Holds the network of so many nodes that the first `count` records tell; the number stands beside the slice, since a slice that is
    // shorter than it is refused. Where it is refused, the network held before stays.
    pub fn load(
        &mut self,
        nodes: usize,
        count: usize,
        records: &'a [LineRecord],
    ) -> Result<(), ListedRefusal>
        ensures { Loaded nodes count records.now (held self.old) (held self.new) result }
    {
        let lines = records.get(..count).ok_or(ListedRefusal::Short)?;
        if nodes > 1024 || count > 16384 {
            return Err(ListedRefusal::TooLarge);
        }
        if let Some(place) = first_unfit(nodes, lines) {
            return Err(ListedRefusal::BadLine(place));
        }
        *self = Listed {
            nodes,
            records: lines,
        };
        Ok(())
    }
}
