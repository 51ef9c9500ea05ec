// Walks downhill.
ghost use Rattle.std.specs.Prelude.{◌≡◌, ℕ, ◌+◌, ◌-◌, ◌<◌, ◌≤◌, length, Decides, slice_set};
ghost use Rattle.network.specs.Net.{size};
ghost use Rattle.network.specs.Flow.{at};
ghost use Rattle.index.specs.Graph.{net};
ghost use Rattle.index.specs.Rows.{start, step_at};
ghost use Rattle.index.specs.Steps.{origin};
ghost use Rattle.reach.specs.Levels.{LeadsDown, Near};
ghost use Rattle.augment.specs.Cursors.{place, row_end, Sought, Cursors, Advanced};
ghost use Rattle.augment.specs.Walks.{Retraceable, Retraced, Ended};
ghost use Rattle.augment.specs.Phases.{Ready, StillReady};

use crate::descent::Descent;
use crate::repair::Repair;
use buffers::places::Places;
use index::graph::Graph;
use index::step::Step;
use reach::room::room;

// Whether the step leads down from the node.
fn leads_down(repair: &Repair<'_, '_>, distance: &[u16], node: usize, step: Step) -> bool
    requires levels { length distance.now ≡ repair.now.graph.nodes }
    requires node { node < repair.now.graph.nodes }
    requires inside { step.line < size (net repair.now.graph) }
    ensures { Decides result (LeadsDown (net repair.now.graph) (at repair.now.flow.now) distance.now node step) }
{
    let lines = repair.graph.lines();
    distance[step.target(lines)] as usize + 1 == distance[node] as usize
        && room(step, lines, repair.flow) > 0
}

// The first place from `from` on where a step leads down from the node, or the end of the node's row.
fn seek(repair: &Repair<'_, '_>, distance: &[u16], node: usize, from: usize) -> usize
    requires levels { length distance.now ≡ repair.now.graph.nodes }
    requires node { node < repair.now.graph.nodes }
    requires low { start repair.now.graph.starts.now node ≤ from }
    requires high { from ≤ row_end repair.now.graph node }
    ensures { Sought repair.now.graph (at repair.now.flow.now) distance.now node from result }
{
    let end = repair.graph.row_start(node + 1);
    // by place, since the place is the answer
    for k in from..end {
        if leads_down(repair, distance, node, repair.graph.step(k)) {
            return k;
        }
    }
    end
}

// Moves the node's cursor on to the first step that leads down, which is the answer; none where the row has no more.
fn advance(
    repair: &Repair<'_, '_>,
    distance: &[u16],
    cursor: &mut [u16],
    node: usize,
) -> Option<Step>
    requires levels { length distance.now ≡ repair.now.graph.nodes }
    requires node { node < repair.now.graph.nodes }
    requires cursors { Cursors repair.now.graph cursor.old }
    ensures { Advanced repair.now.graph (at repair.now.flow.now) distance.now node cursor.old cursor.new result }
{
    let place = seek(repair, distance, node, cursor[node] as usize);
    cursor[node] = place as u16;
    if place < repair.graph.row_start(node + 1) {
        Some(repair.graph.step(place))
    } else {
        None
    }
}

// Puts a step at the end of the walk: here it cannot be refused, since there is a place for it.
fn append(walk: &mut Places<'_, Step>, step: Step)
    requires { walk.old.len < length walk.old.cells.now }
    ensures count { walk.new.len ≡ walk.old.len + 1 }
    ensures cells { walk.new.cells.now ≡ slice_set walk.old.cells.now walk.old.len step }
{
    let _ = walk.push(step);
}

// Takes the last step back: the cursor of its node goes on past it, and the node is the answer; none where there is no step.
fn retreat(graph: &Graph<'_>, cursor: &mut [u16], walk: &mut Places<'_, Step>) -> Option<usize>
    requires { 0 < walk.old.len → Retraceable (net graph.now) cursor.old (step_at walk.old.cells.now (walk.old.len - 1)) }
    ensures cells { walk.new.cells.now ≡ walk.old.cells.now }
    ensures count { walk.new.len ≡ walk.old.len - 1 }
    ensures retraced { Retraced cursor.old (origin (net graph.now) (step_at walk.old.cells.now (walk.old.len - 1))) walk.old.len cursor.new result }
{
    let node = walk.pop()?.origin(graph.lines());
    cursor[node] += 1;
    Some(node)
}

// Puts every cursor at the beginning of its row.
fn rewind(graph: &Graph<'_>, cursor: &mut [u16])
    requires { length cursor.old ≡ graph.now.nodes }
    ensures { (v : ℕ) → v < length cursor.old → place cursor.new v ≡ start graph.now.starts.now v }
{
    for (node, place) in cursor.iter_mut().enumerate() {
        *place = graph.row_start(node) as u16;
    }
}

impl<'a, 'd> Descent<'a, 'd> {
    // No step yet, and every cursor at the beginning of its row.
    pub fn new(
        graph: &Graph<'_>,
        distance: &'d [u16],
        cursor: &'a mut [u16],
        walk: &'a mut [Step],
    ) -> Descent<'a, 'd>
        requires distance { length distance.now ≡ graph.now.nodes }
        requires cursor { length cursor.old ≡ graph.now.nodes }
        requires walk { length walk.old ≡ graph.now.nodes }
        ensures distance { result.distance.now ≡ distance.now }
        ensures ready { Ready graph.now result }
        ensures begin { (v : ℕ) → v < graph.now.nodes → place result.cursor.now v ≡ start graph.now.starts.now v }
    {
        rewind(graph, cursor);
        Descent {
            distance,
            cursor,
            walk: Places::new(walk),
        }
    }

    // Walks down from a reached node to a lacking one; none where every way down is shut.
    pub fn walk_down(&mut self, repair: &Repair<'_, '_>, from: usize) -> Option<usize>
        requires ready { Ready repair.now.graph self.old }
        requires node { from < repair.now.graph.nodes }
        requires near { Near (net repair.now.graph) self.old.distance.now from }
        ensures ready { StillReady repair.now.graph self.old self.new }
        ensures ended { Ended repair.now.graph (at repair.now.flow.now) (at repair.now.lack.now) self.old.distance.now self.old.cursor.now from self.new.cursor.now self.new.walk.cells.now self.new.walk.len result }
    {
        self.walk.clear();
        let mut node = from;
        while repair.lack[node] == 0 {
            match advance(repair, self.distance, self.cursor, node) {
                Some(step) => {
                    append(&mut self.walk, step);
                    node = step.target(repair.graph.lines());
                }
                None => node = retreat(&repair.graph, self.cursor, &mut self.walk)?,
            }
        }
        Some(node)
    }
}
