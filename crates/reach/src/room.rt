// How much more a step can carry.
ghost use Rattle.std.specs.Prelude.{◌≡◌, ◌<◌, ◌≤◌, length};
ghost use Rattle.network.specs.Net.{line, least, most};
ghost use Rattle.network.specs.Flow.{at};
ghost use Rattle.network.specs.Records.{net_of};
ghost use Rattle.reach.specs.Room.{room_of, reversed};

use index::step::Step;
use network::line_record::LineRecord;

pub fn room(step: Step, lines: &[LineRecord], flow: &[u32]) -> u32
    requires inside { step.line < length lines.now }
    requires long { length flow.now ≡ length lines.now }
    requires low { least (line (net_of 0 lines.now) step.line) ≤ at flow.now step.line }
    requires high { at flow.now step.line ≤ most (line (net_of 0 lines.now) step.line) }
    ensures { result ≡ room_of (net_of 0 lines.now) (at flow.now) step }
{
    let place = step.line as usize;
    if step.direction == 0 {
        lines[place].most as u32 - flow[place]
    } else {
        flow[place] - lines[place].least as u32
    }
}

// The step over the same line the other way.
pub fn reverse(step: Step) -> Step
    requires { step.direction < 2 }
    ensures { result ≡ reversed step }
{
    Step {
        line: step.line,
        direction: 1 - step.direction,
    }
}
