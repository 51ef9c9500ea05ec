// Pushes along a walk: as much as its start has to spare, its end lacks, and every step has room for.
ghost use Rattle.std.specs.Prelude.{◌≡◌, ℕ, ◌+◌, ◌-◌, ◌<◌, ◌≤◌, true, false, length, slice_set};
ghost use Rattle.network.specs.Net.{size};
ghost use Rattle.network.specs.Flow.{at};
ghost use Rattle.flows.specs.Steps.{along, pushed, put};
ghost use Rattle.flows.specs.Trails.{Trail};
ghost use Rattle.index.specs.Graph.{net};
ghost use Rattle.index.specs.Rows.{step_at};
ghost use Rattle.reach.specs.Room.{step_of};
ghost use Rattle.augment.specs.Walks.{trodden};
ghost use Rattle.augment.specs.Repairs.{SameMemory};
ghost use Rattle.augment.specs.Pushes.{Narrowest, Passable, Pushed};

use crate::repair::Repair;
use buffers::places::Places;
use index::step::Step;
use reach::room::room;

// What every step of the walk has room for, and no more than the limit.
fn narrowest(repair: &Repair<'_, '_>, walk: &Places<'_, Step>, limit: u32) -> u32
    requires { (k : ℕ) → k < walk.now.len → (step_at walk.now.cells.now k).line < size (net repair.now.graph) }
    ensures { Narrowest (net repair.now.graph) (at repair.now.flow.now) walk.now.cells.now walk.now.len limit result }
{
    let mut amount = limit;
    for step in walk.elements() {
        amount = amount.min(room(*step, repair.graph.lines(), repair.flow));
    }
    amount
}

// Moves an amount over a step.
fn carry(flow: &mut [u32], step: Step, amount: u32)
    requires inside { step.line < length flow.old }
    requires more { along (step_of step) ≡ true → at flow.old step.line + amount < 4294967296 }
    requires less { along (step_of step) ≡ false → amount ≤ at flow.old step.line }
    ensures { flow.new ≡ put (step_of step) amount flow.old }
{
    let place = step.line as usize;
    if step.direction == 0 {
        flow[place] += amount;
    } else {
        flow[place] -= amount;
    }
}

// Moves an amount over every step of the walk.
fn push_along(flow: &mut [u32], walk: &Places<'_, Step>, amount: u32)
    requires { Passable amount flow.old (trodden walk.now.cells.now walk.now.len) }
    ensures { flow.new ≡ pushed (trodden walk.now.cells.now walk.now.len) amount flow.old }
{
    for step in walk.elements() {
        carry(flow, *step, amount);
    }
}

// Moves an amount over the walk, off what its start has to spare and what its end lacks.
fn transfer(
    flow: &mut [u32],
    spare: &mut [u32],
    lack: &mut [u32],
    walk: &Places<'_, Step>,
    from: usize,
    to: usize,
    amount: u32,
)
    requires walk { Passable amount flow.old (trodden walk.now.cells.now walk.now.len) }
    requires from { from < length spare.old }
    requires to { to < length lack.old }
    requires spare { amount ≤ at spare.old from }
    requires lack { amount ≤ at lack.old to }
    ensures flow { flow.new ≡ pushed (trodden walk.now.cells.now walk.now.len) amount flow.old }
    ensures spare { spare.new ≡ slice_set spare.old from (at spare.old from - amount) }
    ensures lack { lack.new ≡ slice_set lack.old to (at lack.old to - amount) }
{
    push_along(flow, walk, amount);
    spare[from] -= amount;
    lack[to] -= amount;
}

impl Repair<'_, '_> {
    // Moves as much as can be moved over the walk, from the node where it starts to the one where it ends.
    pub(crate) fn push(&mut self, walk: &Places<'_, Step>, from: usize, to: usize)
        requires from { from < self.old.graph.nodes }
        requires to { to < self.old.graph.nodes }
        requires much { 0 < at self.old.spare.now from }
        requires little { 0 < at self.old.lack.now to }
        requires trail { Trail (net self.old.graph) 1 (at self.old.flow.now) from to (trodden walk.now.cells.now walk.now.len) }
        ensures memory { SameMemory self.old self.new }
        ensures pushed { Pushed self.old.graph.nodes from self.old.spare.now self.new.spare.now }
    {
        let limit = self.spare[from].min(self.lack[to]);
        let amount = narrowest(self, walk, limit);
        // in one call, as the amounts fit together again only when all three are changed
        transfer(self.flow, self.spare, self.lack, walk, from, to, amount);
    }
}
