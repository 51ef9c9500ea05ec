// The listed network, over records that the caller lends. It keeps the limits of every network at all times.
ghost use Rattle.network.specs.Net.{Limits};
ghost use Rattle.network.specs.Records.{net_of};

use network::line_record::LineRecord;

pub mod answers;
pub mod load;

#[derive(Drop)]
pub struct Listed<'a> {
    nodes: usize,
    records: &'a [LineRecord],
    ghost within: { Limits (net_of nodes records.now) },
}
