// The closing layer: it holds a network and, once closed, has one line more, the last.
ghost use Rattle.std.specs.Prelude.{◌≡◌, None, Decides};
ghost use Rattle.network.specs.Net.{size};
ghost use Rattle.network.specs.Records.{line_of};
ghost use Rattle.layers.specs.Closing.{close_number, FitsLast, standing_last, ClosesOn};

use network::Network;
use network::line_record::LineRecord;

pub mod answers;
pub mod legend;

// What it means is defined for every value: a kept line that does not fit what lies below is passed over, and no call leaves one.
#[derive(Drop)]
pub struct Closing<N> {
    below: N,
    last: Option<LineRecord>,
}

// Why a layer is not closed.
#[derive(Clone, Copy, PartialEq, Eq, Debug)]
pub enum CloseRefusal {
    AlreadyClosed,
    // an end is not a node, the least is above the most, or as many lines as a network may have lie below
    Unfit,
}

impl CloseRefusal {
    pub fn number(self) -> u8
        ensures { result ≡ close_number self }
    {
        match self {
            CloseRefusal::AlreadyClosed => 8,
            CloseRefusal::Unfit => 9,
        }
    }
}

impl<N: Network> Closing<N> {
    // The layer over a network, not closed yet.
    pub fn new(below: N) -> Closing<N>
        ensures below { result.below ≡ below }
        ensures unclosed { result.last ≡ None }
    {
        Closing { below, last: None }
    }

    // Adds the last line. A refusal changes nothing.
    pub fn close(&mut self, tail: u16, head: u16, least: u16, most: u16) -> Result<(), CloseRefusal>
        ensures { ClosesOn N.Network.meaning (record { tail = tail; head = head; least = least; most = most }) self.old self.new result }
    {
        if self.last.is_some() {
            return Err(CloseRefusal::AlreadyClosed);
        }
        let line = LineRecord::new(tail, head, least, most);
        if !fits(self.below.nodes(), self.below.lines(), line) {
            return Err(CloseRefusal::Unfit);
        }
        self.last = Some(line);
        Ok(())
    }

    // The network that the layer held.
    pub fn into_inner(self) -> N
        ensures { result ≡ self.below }
    {
        let Closing { below, last: _ } = self;
        below
    }

    // The last line, if the layer has one; so many lines lie below.
    fn standing(&self, lines: usize) -> Option<LineRecord>
        requires { lines ≡ size (N.Network.meaning self.now.below) }
        ensures { result ≡ standing_last (N.Network.meaning self.now.below) self.now.last }
    {
        self.last
            .filter(|line| fits(self.below.nodes(), lines, *line))
    }
}

// Whether a line fits as the last over so many nodes and lines.
fn fits(nodes: usize, lines: usize, line: LineRecord) -> bool
    ensures { Decides result (FitsLast nodes lines (line_of line)) }
{
    usize::from(line.tail) < nodes
        && usize::from(line.head) < nodes
        && line.least <= line.most
        && lines < 16384
}
