// The search over steps with room: from node to node, until it finds the one that it seeks.
ghost use Rattle.std.specs.Prelude.{◌≡◌, ◌<◌, ◌≤◌, true, false, length, replicate};
ghost use Rattle.index.specs.Graph.{net};
ghost use Rattle.verdicts.specs.Search.{has_room, passable, found, reached, Listed, Adds, Grows, Visits, Ends, Answer};

use buffers::marks::Marks;
use buffers::places::Places;
use index::graph::Graph;
use index::step::Step;

// Where a search goes: over a network in memory and an amount for each line, without one line, to the node that is sought.
#[derive(Clone, Copy)]
pub struct Search<'a> {
    pub graph: &'a Graph<'a>,
    pub flow: &'a [u32],
    pub avoid: usize,
    pub sought: usize,
    ghost amounts: { length flow.now ≡ length graph.now.lines.now },
}

// Whether one more can go over the step: the line is below its most, or against it above its least.
pub(crate) fn room_for_one(graph: &Graph<'_>, flow: &[u32], step: Step) -> bool
    requires line { step.line < length graph.now.lines.now }
    requires amounts { length flow.now ≡ length graph.now.lines.now }
    ensures { result ≡ has_room (net graph.now) flow.now step }
{
    let place = step.line as usize;
    let line = graph.lines()[place];
    let (less, more) = if step.direction == 0 {
        (flow[place], line.most as u32)
    } else {
        (line.least as u32, flow[place])
    };
    less < more
}

// Marks and lists a node, unless it is marked already. The marks and the list stay two parameters: a struct of both gets no proof
// that its lender has blank marks back.
fn find_node(node: usize, marks: &mut Marks<'_>, list: &mut Places<'_, u16>)
    requires listed { Listed (found marks.old list.old) }
    requires node { node < marks.old.count }
    requires small { marks.old.count ≤ 1024 }
    ensures marks { marks.new.bytes.ghost_name ≡ marks.old.bytes.ghost_name }
    ensures list { list.new.cells.ghost_name ≡ list.old.cells.ghost_name }
    ensures adds { Adds node (found marks.old list.old) (found marks.new list.new) }
{
    if marks.mark(node) {
        let _ = list.push(node as u16);
    }
}

impl Search<'_> {
    // Whether one more can go over the step.
    pub fn has_room(&self, step: Step) -> bool
        requires { step.line < length self.now.graph.now.lines.now }
        ensures { result ≡ has_room (net self.now.graph.now) self.now.flow.now step }
    {
        room_for_one(self.graph, self.flow, step)
    }

    // Whether the search may take this step: not over the line to avoid, and with room for one more.
    fn is_passable(&self, step: Step) -> bool
        requires { step.line < length self.now.graph.now.lines.now }
        ensures { result ≡ passable (net self.now.graph.now) self.now.flow.now self.now.avoid step }
    {
        step.line as usize != self.avoid && self.has_room(step)
    }

    // Goes through the steps that leave a node, and finds the nodes where those that it may take end; stops at the one sought.
    fn visit_node(&self, node: usize, marks: &mut Marks<'_>, list: &mut Places<'_, u16>) -> bool
        requires nodes { marks.old.count ≡ (net self.now.graph.now).nodes }
        requires listed { Listed (found marks.old list.old) }
        requires node { reached (found marks.old list.old) node ≡ true }
        requires sought { reached (found marks.old list.old) self.now.sought ≡ false }
        ensures marks { marks.new.bytes.ghost_name ≡ marks.old.bytes.ghost_name }
        ensures list { list.new.cells.ghost_name ≡ list.old.cells.ghost_name }
        ensures grows { Grows (net self.now.graph.now) self.now.flow.now self.now.avoid (found marks.old list.old) (found marks.new list.new) }
        ensures visits { Visits (net self.now.graph.now) self.now.flow.now self.now.avoid (found marks.new list.new) node self.now.sought result }
    {
        for &step in self.graph.row(node) {
            if self.is_passable(step) {
                let next = step.target(self.graph.lines());
                find_node(next, marks, list);
                if next == self.sought {
                    return true;
                }
            }
        }
        false
    }

    // Visits the listed nodes in their order, until the one sought is found or all are finished.
    fn visit_all(&self, marks: &mut Marks<'_>, list: &mut Places<'_, u16>) -> bool
        requires nodes { marks.old.count ≡ (net self.now.graph.now).nodes }
        requires listed { Listed (found marks.old list.old) }
        requires sought { reached (found marks.old list.old) self.now.sought ≡ false }
        ensures marks { marks.new.bytes.ghost_name ≡ marks.old.bytes.ghost_name }
        ensures list { list.new.cells.ghost_name ≡ list.old.cells.ghost_name }
        ensures grows { Grows (net self.now.graph.now) self.now.flow.now self.now.avoid (found marks.old list.old) (found marks.new list.new) }
        ensures ends { Ends (net self.now.graph.now) self.now.flow.now self.now.avoid (found marks.new list.new) self.now.sought result }
    {
        // by place, since the list grows while it is read
        let mut read = 0;
        while let Some(node) = list.get(read) {
            if self.visit_node(node as usize, marks, list) {
                return true;
            }
            read += 1;
        }
        false
    }

    // Whether steps with room lead from the start to the node sought without the line to avoid. The memory comes as two slices: a
    // guard on a field behind a `&mut` gets no proof that the field is blank again.
    pub fn reaches(&self, start: usize, marks: &mut [u8], queue: &mut [u16]) -> bool
        requires nodes { length marks.old ≡ (net self.now.graph.now).nodes }
        requires queue { length queue.old ≡ length marks.old }
        requires start { start < (net self.now.graph.now).nodes }
        ensures blank { marks.new ≡ replicate (length marks.old) 0 }
        ensures answer { Answer (net self.now.graph.now) self.now.flow.now self.now.avoid start self.now.sought result }
    {
        let mut marked = Marks::new(marks, self.graph.nodes());
        let mut list = Places::new(queue);
        find_node(start, &mut marked, &mut list);
        if start == self.sought {
            return true;
        }
        self.visit_all(&mut marked, &mut list)
    }
}
