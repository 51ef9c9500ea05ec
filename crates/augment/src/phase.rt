// A phase: pushes from the reached nodes with something to spare, for as long as ways lead down.
ghost use Rattle.std.specs.Prelude.{◌≡◌, ◌<◌, length};
ghost use Rattle.network.specs.Flow.{at};
ghost use Rattle.index.specs.Graph.{net};
ghost use Rattle.reach.specs.Levels.{Near, Levelled};
ghost use Rattle.augment.specs.Repairs.{SameMemory};
ghost use Rattle.augment.specs.Pushes.{total};
ghost use Rattle.augment.specs.Phases.{Ready, StillReady, Attempted, Draining};

use crate::descent::Descent;
use crate::repair::Repair;
use index::step::Step;
use reach::levels::reach;
use reach::load::Load;

impl Repair<'_, '_> {
    // Gives each node its level, by what the lines carry and the nodes lack.
    pub fn level(&self, queue: &mut [u16], distance: &mut [u16])
        requires queue { length queue.old ≡ self.now.graph.nodes }
        requires distance { length distance.old ≡ self.now.graph.nodes }
        ensures { Levelled (net self.now.graph) (at self.now.flow.now) (at self.now.lack.now) distance.new }
    {
        let load = Load {
            graph: self.graph,
            flow: self.flow,
        };
        reach(&load, self.lack, queue, distance);
    }

    // Walks down from a node and pushes along the way; false where every way down is shut.
    fn attempt(&mut self, descent: &mut Descent<'_, '_>, from: usize) -> bool
        requires ready { Ready self.old.graph descent.old }
        requires node { from < self.old.graph.nodes }
        requires near { Near (net self.old.graph) descent.old.distance.now from }
        requires much { 0 < at self.old.spare.now from }
        ensures memory { SameMemory self.old self.new }
        ensures ready { StillReady self.old.graph descent.old descent.new }
        ensures attempted { Attempted self.old descent.old from self.new result }
    {
        match descent.walk_down(self, from) {
            Some(to) => {
                self.push(&descent.walk, from, to);
                true
            }
            None => false,
        }
    }

    // Pushes from a node until it has nothing to spare or every way down is shut.
    fn drain(&mut self, descent: &mut Descent<'_, '_>, from: usize)
        requires ready { Ready self.old.graph descent.old }
        requires node { from < self.old.graph.nodes }
        requires near { Near (net self.old.graph) descent.old.distance.now from }
        ensures { Draining self.old descent.old self.new descent.new }
    {
        while self.spare[from] > 0 {
            if !self.attempt(descent, from) {
                return;
            }
        }
    }

    // Pushes from every reached node.
    fn drain_all(&mut self, descent: &mut Descent<'_, '_>)
        requires { Ready self.old.graph descent.old }
        ensures { Draining self.old descent.old self.new descent.new }
    {
        // by number, since the levels are lent within `descent`, which each turn changes
        let graph = self.graph;
        for node in 0..graph.nodes() {
            if (descent.distance[node] as usize) < graph.nodes() {
                self.drain(descent, node);
            }
        }
    }

    // Pushes from a reached node with something to spare, and then from all: less is to spare afterwards.
    pub fn augment(
        &mut self,
        distance: &[u16],
        cursor: &mut [u16],
        walk: &mut [Step],
        source: usize,
    )
        requires levels { Levelled (net self.old.graph) (at self.old.flow.now) (at self.old.lack.now) distance.now }
        requires distance { length distance.now ≡ self.old.graph.nodes }
        requires cursor { length cursor.old ≡ self.old.graph.nodes }
        requires walk { length walk.old ≡ self.old.graph.nodes }
        requires source { source < self.old.graph.nodes }
        requires near { Near (net self.old.graph) distance.now source }
        requires much { 0 < at self.old.spare.now source }
        ensures memory { SameMemory self.old self.new }
        ensures falls { total self.old.graph.nodes self.new.spare.now < total self.old.graph.nodes self.old.spare.now }
    {
        let graph = self.graph;
        let mut descent = Descent::new(&graph, distance, cursor, walk);
        let _ = self.attempt(&mut descent, source);
        self.drain_all(&mut descent);
    }
}
