// What is wrong with a record or with its block; the block is counted from 0, the record from 1.
ghost use Rattle.std.specs.Prelude.{◌≡◌};
ghost use Rattle.records.specs.Faults.{record_told};
ghost use Rattle.records.specs.declared.fault.RecordFault.TheVariants.{Block};

use blocks::fault::BlockFault;

#[derive(Clone, Copy, PartialEq, Eq, Debug)]
pub enum RecordFault {
    Block(BlockFault),
    // a record of the head, a part or a sign: padding, length or a byte is wrong, or a sign's text is repeated
    Job(usize, usize),
    // a record of an act: the letter is unknown, or an unused byte is not zero
    Act(usize, usize),
}

// By hand: the contracts of `?` go by `from_gives`, and the derive of `thiserror` gives none.
impl From<BlockFault> for RecordFault {
    ghost from_gives = { λ e r. r ≡ Block e };

    fn from(e: BlockFault) -> RecordFault {
        RecordFault::Block(e)
    }
}

impl RecordFault {
    // The numbers of refusals are the product's own, so each variant has its own here.
    pub fn number(self) -> u8
        ensures { result ≡ (record_told self).0 }
    {
        match self {
            RecordFault::Block(e) => e.number(),
            RecordFault::Job(_, _) => 17,
            RecordFault::Act(_, _) => 18,
        }
    }

    pub fn block(self) -> usize
        ensures { result ≡ (record_told self).1 }
    {
        match self {
            RecordFault::Block(e) => e.block(),
            RecordFault::Job(block, _) | RecordFault::Act(block, _) => block,
        }
    }

    pub fn place(self) -> usize
        ensures { result ≡ (record_told self).2 }
    {
        match self {
            RecordFault::Block(_) => 0,
            RecordFault::Job(_, place) | RecordFault::Act(_, place) => place,
        }
    }
}
