// The verdict on each line: free if a lawful flow can carry more or less over it, and else fixed.
ghost use Rattle.std.specs.Prelude.{◌≡◌, ◌<◌, true, length, replicate};
ghost use Rattle.network.specs.Flow.{Lawful};
ghost use Rattle.index.specs.Graph.{net};
ghost use Rattle.verdicts.specs.Number.{number};
ghost use Rattle.verdicts.specs.Search.{has_room};
ghost use Rattle.verdicts.specs.Verdicts.{CanChange, Verdicts};
ghost use Rattle.verdicts.specs.Verdicts.{Verdict as Told};

use crate::lent::Lent;
use crate::search::{Search, room_for_one};
use crate::verdict::Verdict;
use index::graph::Graph;
use index::step::Step;

// Whether a lawful flow can carry one more over a step with room: one more comes back from where the step ends to where it begins
// without its line. Never inlined, so that a line without room costs no more than a look at it.
#[inline(never)]
fn comes_back(graph: &Graph<'_>, flow: &[u32], step: Step, lent: &mut Lent<'_>) -> bool
    requires nodes { length lent.old.marks.now ≡ (net graph.now).nodes }
    requires lawful { Lawful (net graph.now) flow.now }
    requires line { step.line < length graph.now.lines.now }
    requires room { has_room (net graph.now) flow.now step ≡ true }
    ensures lent { lent.new.marks.ghost_name ≡ lent.old.marks.ghost_name }
    ensures nodes { length lent.new.marks.now ≡ length lent.old.marks.now }
    ensures changes { CanChange (net graph.now) flow.now step result }
{
    let lines = graph.lines();
    let (origin, target) = (step.origin(lines), step.target(lines));
    let search = Search {
        graph,
        flow,
        avoid: step.line as usize,
        sought: origin,
    };
    search.reaches(target, lent.marks, lent.queue)
}

// Whether a lawful flow can carry one more over the step: there is room, and one more comes back.
fn can_change(graph: &Graph<'_>, flow: &[u32], step: Step, lent: &mut Lent<'_>) -> bool
    requires nodes { length lent.old.marks.now ≡ (net graph.now).nodes }
    requires lawful { Lawful (net graph.now) flow.now }
    requires line { step.line < length graph.now.lines.now }
    ensures lent { lent.new.marks.ghost_name ≡ lent.old.marks.ghost_name }
    ensures nodes { length lent.new.marks.now ≡ length lent.old.marks.now }
    ensures changes { CanChange (net graph.now) flow.now step result }
{
    room_for_one(graph, flow, step) && comes_back(graph, flow, step, lent)
}

// The verdict on one line: whether it is fixed at the amount that it carries, or free from it.
fn judge_line(graph: &Graph<'_>, flow: &[u32], place: usize, lent: &mut Lent<'_>) -> Verdict
    requires nodes { length lent.old.marks.now ≡ (net graph.now).nodes }
    requires lawful { Lawful (net graph.now) flow.now }
    requires place { place < length graph.now.lines.now }
    ensures lent { lent.new.marks.ghost_name ≡ lent.old.marks.ghost_name }
    ensures nodes { length lent.new.marks.now ≡ length lent.old.marks.now }
    ensures verdict { Told (net graph.now) flow.now place (number result) }
{
    let more = Step::along(place);
    let less = Step::against(place);
    if can_change(graph, flow, more, lent) || can_change(graph, flow, less, lent) {
        Verdict::Free
    } else {
        Verdict::Fixed
    }
}

// The verdict on each line, from any lawful flow; the marks are blank afterwards.
pub fn judge_lines(
    graph: &Graph<'_>,
    flow: &[u32],
    verdicts: &mut [u8],
    marks: &mut [u8],
    queue: &mut [u16],
)
    requires lawful { Lawful (net graph.now) flow.now }
    requires verdicts { length verdicts.old ≡ length graph.now.lines.now }
    requires marks { length marks.old ≡ (net graph.now).nodes }
    requires queue { length queue.old ≡ length marks.old }
    ensures blank { marks.new ≡ replicate (length marks.old) 0 }
    ensures verdicts { Verdicts (net graph.now) flow.now verdicts.new }
{
    let mut lent = Lent::new(marks, queue);
    for (place, verdict) in verdicts.iter_mut().enumerate() {
        *verdict = u8::from(judge_line(graph, flow, place, &mut lent));
    }
}

#[cfg(test)]
mod tests {
    use super::*;
    use network::line_record::LineRecord;

    // Two lines side by side, the only line back, which has one amount, one from a node to itself, and one with no way back.
    #[test]
    fn free_side_by_side_and_fixed_with_no_way_back(rt: HostRuntime) {
        let lines = [
            LineRecord::new(0, 1, 0, 2),
            LineRecord::new(1, 0, 1, 1),
            LineRecord::new(0, 1, 0, 2),
            LineRecord::new(1, 1, 0, 1),
            LineRecord::new(1, 2, 0, 5),
        ];
        let flow = [1, 1, 0, 0, 0];
        let mut starts = [0; 4];
        let mut steps = [Step::along(0); 10];
        let graph = Graph::new(3, &lines, &mut starts, &mut steps);
        let mut verdicts = [9; 5];
        let mut marks = [9; 3];
        let mut queue = [9; 3];
        judge_lines(&graph, &flow, &mut verdicts, &mut marks, &mut queue);
        assert_eq!(rt; verdicts, [0, 1, 0, 0, 1]);
        assert_eq!(rt; marks, [0, 0, 0]);
    }
}
