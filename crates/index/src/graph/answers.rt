// How a network in memory is made, and what it answers.
ghost use Rattle.std.specs.Prelude.{◌≡◌, ◌+◌, ◌*◌, ◌<◌, ◌≤◌, length};
ghost use Rattle.network.specs.Net.{Limits};
ghost use Rattle.network.specs.Records.{net_of};
ghost use Rattle.index.specs.Graph.{net, row_of};
ghost use Rattle.index.specs.Rows.{Indexed, start, step_at};

use super::Graph;
use crate::rows::index_steps;
use crate::step::Step;
use network::line_record::LineRecord;

impl<'a> Graph<'a> {
    // The network of so many nodes and these lines; its rows lie in the places that are lent for them.
    pub fn new(
        nodes: usize,
        lines: &'a [LineRecord],
        starts: &'a mut [u16],
        steps: &'a mut [Step],
    ) -> Graph<'a>
        requires limits { Limits (net_of nodes lines.now) }
        requires long { length starts.old ≡ nodes + 1 }
        requires room { length steps.old ≡ 2 * length lines.now }
        ensures { net result ≡ net_of nodes lines.now }
    {
        index_steps(nodes, lines, starts, steps);
        Graph::over(nodes, lines, starts, steps)
    }

    // The network of so many nodes and these lines, with an index that was made before.
    pub fn over(
        nodes: usize,
        lines: &'a [LineRecord],
        starts: &'a [u16],
        steps: &'a [Step],
    ) -> Graph<'a>
        requires limits { Limits (net_of nodes lines.now) }
        requires indexed { Indexed (net_of nodes lines.now) starts.now steps.now }
        ensures { net result ≡ net_of nodes lines.now }
    {
        Graph {
            nodes,
            lines,
            starts,
            steps,
        }
    }

    pub fn nodes(&self) -> usize
        ensures { result ≡ (net self.now).nodes }
    {
        self.nodes
    }

    pub fn lines(&self) -> &'a [LineRecord]
        ensures { result.now ≡ self.now.lines.now }
    {
        self.lines
    }

    // The place where the row of a node begins; the row before it ends there.
    pub fn row_start(&self, node: usize) -> usize
        requires { node ≤ self.now.nodes }
        ensures { result ≡ start self.now.starts.now node }
    {
        self.starts[node] as usize
    }

    // The step at a place of the rows.
    pub fn step(&self, place: usize) -> Step
        requires { place < length self.now.steps.now }
        ensures { result ≡ step_at self.now.steps.now place }
    {
        self.steps[place]
    }

    // The steps that leave a node.
    pub fn row(&self, node: usize) -> &'a [Step]
        requires { node < self.now.nodes }
        ensures { result.now ≡ row_of self.now node }
    {
        &self.steps[self.row_start(node)..self.row_start(node + 1)]
    }
}
