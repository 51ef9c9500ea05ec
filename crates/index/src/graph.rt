// A network in memory that a search goes over: its lines, and for each node the steps that leave it.
ghost use Rattle.network.specs.Net.{Limits};
ghost use Rattle.network.specs.Records.{net_of};
ghost use Rattle.index.specs.Rows.{Indexed};

use crate::step::Step;
use network::line_record::LineRecord;

pub mod answers;

#[derive(Clone, Copy)]
pub struct Graph<'a> {
    nodes: usize,
    lines: &'a [LineRecord],
    starts: &'a [u16],
    steps: &'a [Step],
    ghost limits: { Limits (net_of nodes lines.now) },
    ghost indexed: { ∥ Indexed (net_of nodes lines.now) starts.now steps.now ∥₁ },
}
