// A step of a search: over a line, from its tail to its head or the other way.
ghost use Rattle.std.specs.Prelude.{◌≡◌, ◌<◌, length};
ghost use Rattle.network.specs.Records.{net_of};
ghost use Rattle.index.specs.Steps.{along, against, origin, target};

use network::line_record::LineRecord;

#[derive(Clone, Copy, PartialEq, Eq, Debug, Default)]
pub struct Step {
    pub line: u16,
    // 0 along the line, 1 against it; a byte, so that memory which is lent from outside Rattle may hold anything
    pub direction: u8,
}

impl Step {
    // The step along the line at this place, and the one against it.
    pub fn along(line: usize) -> Step
        requires { line < 65536 }
        ensures { result ≡ along line }
    {
        Step {
            line: line as u16,
            direction: 0,
        }
    }

    pub fn against(line: usize) -> Step
        requires { line < 65536 }
        ensures { result ≡ against line }
    {
        Step {
            line: line as u16,
            direction: 1,
        }
    }

    // The node that the step leaves, and the one that it comes to.
    fn ends(self, lines: &[LineRecord]) -> (usize, usize)
        requires { self.line < length lines.now }
        ensures { result ≡ (origin (net_of 0 lines.now) self, target (net_of 0 lines.now) self) }
    {
        let line = lines[self.line as usize];
        let (tail, head) = (line.tail as usize, line.head as usize);
        if self.direction == 0 {
            (tail, head)
        } else {
            (head, tail)
        }
    }

    // The node that the step leaves.
    pub fn origin(self, lines: &[LineRecord]) -> usize
        requires { self.line < length lines.now }
        ensures { result ≡ origin (net_of 0 lines.now) self }
    {
        self.ends(lines).0
    }

    // The node that it comes to.
    pub fn target(self, lines: &[LineRecord]) -> usize
        requires { self.line < length lines.now }
        ensures { result ≡ target (net_of 0 lines.now) self }
    {
        self.ends(lines).1
    }
}
