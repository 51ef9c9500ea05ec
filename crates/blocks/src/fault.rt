// What is wrong with a block; the block is told by its place in the file.
ghost use Rattle.std.specs.Prelude.{◌≡◌};
ghost use Rattle.blocks.specs.Faults.{block_told};

#[derive(Clone, Copy, PartialEq, Eq, Debug)]
pub enum BlockFault {
    // the check differs
    Check(usize),
    // the kind, the place or the record count is wrong, or bytes after the records are not zero
    Layout(usize),
}

impl BlockFault {
    // The numbers of refusals are the product's own, so each variant has its own here.
    pub fn number(self) -> u8
        ensures { result ≡ (block_told self).0 }
    {
        match self {
            BlockFault::Check(_) => 15,
            BlockFault::Layout(_) => 16,
        }
    }

    pub fn block(self) -> usize
        ensures { result ≡ (block_told self).1 }
    {
        match self {
            BlockFault::Check(place) | BlockFault::Layout(place) => place,
        }
    }
}
