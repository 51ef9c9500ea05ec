// The acts of a file, in order, across the blocks that hold them.
ghost use Rattle.std.specs.Prelude.{◌≡◌, ◌<◌, length};
ghost use Rattle.std.specs.List.{slice_get};
ghost use Rattle.jobfile.specs.Contents.{acts_from, act_blocks, acts_in, acts_of};
ghost use Rattle.jobfile.specs.Formed.{Formed};

use crate::file::JobFile;
use blocks::bytes::byte;
use contents::act::Act;
use layout::places::{block_at, record_of};
use records::act::act_of;

#[tactic(auto, using(crate::proofs::ActLists::act_lists))]
impl<'a> JobFile<'a> {
    // The first block of the acts.
    pub(crate) fn acts_start(&self) -> usize
        ensures is { result ≡ acts_from self.now.file.now }
        ensures small { result < 64 }
    {
        self.shape().acts_start()
    }

    // How many blocks of acts there are.
    fn act_blocks(&self) -> usize
        ensures { result ≡ act_blocks self.now.file.now }
    {
        (self.file.len() / 512).saturating_sub(self.acts_start())
    }

    // How many acts the block a of theirs says that it holds.
    fn acts_in(&self, a: usize) -> usize
        requires { a < act_blocks self.now.file.now }
        ensures is { result ≡ length (acts_in self.now.file.now a) }
        ensures small { result < 256 }
    {
        let block = block_at(self.file, self.acts_start() + a);
        usize::from(byte(block, 1))
    }

    // The act k, counted from 0; none from the number of acts up.
    pub fn act(&self, k: usize) -> Option<Act>
        ensures { Formed self.now.file.now → result ≡ slice_get (acts_of self.now.file.now) k }
    {
        let mut left = k;
        // by place: blocks are parts of the file, of which no list stands
        for a in 0..self.act_blocks() {
            let count = self.acts_in(a);
            if left < count {
                return act_of(record_of(self.file, self.acts_start() + a, left));
            }
            left -= count;
        }
        None
    }

    // The number of acts.
    pub fn act_count(&self) -> usize
        ensures { result ≡ length (acts_of self.now.file.now) }
    {
        (0..self.act_blocks()).map(|a| self.acts_in(a)).sum()
    }
}
