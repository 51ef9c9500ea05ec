// The copy of a network's lines: each is asked for once.
ghost use Rattle.std.specs.Prelude.{◌≡◌, length};
ghost use Rattle.network.specs.Net.{Limits, Same, size};
ghost use Rattle.network.specs.Records.{net_of};

use network::Network;
use network::line_record::LineRecord;

pub fn copy_lines<N: Network>(network: &N, lines: &mut [LineRecord])
    requires { length lines.old ≡ size (N.Network.meaning network.now) }
    ensures same { Same (net_of (N.Network.meaning network.now).nodes lines.new) (N.Network.meaning network.now) }
    ensures limits { Limits (net_of (N.Network.meaning network.now).nodes lines.new) }
{
    for (place, line) in lines.iter_mut().enumerate() {
        if let Some((tail, head, least, most)) = network::ask(network, place) {
            *line = LineRecord::new(tail, head, least, most);
        }
    }
}
