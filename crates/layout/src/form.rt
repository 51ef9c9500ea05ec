// Whether the blocks and records of a file are of their kind.
ghost use Rattle.std.specs.Prelude.{◌≡◌, ℕ, ◌+◌, ◌-◌, ◌*◌, ◌/◌, ◌<◌, ◌≤◌, not, length, Decides, MatchResult};
ghost use Rattle.layout.specs.Places.{signs_start, text_at};
ghost use Rattle.layout.specs.Form.{FormRead, NewText, RecordForm, GoodBlock, GoodBlocks, Faulty, FirstFault};

use crate::kind::Kind;
use crate::places::{block_at, record_at, record_of, signs_start};
use crate::shape::Shape;
use blocks::block::read_block;
use blocks::fault::BlockFault;
use records::act::act_of;
use records::fault::RecordFault;
use records::head::is_head;
use records::label::{label, same_text};
use records::part::is_part;
use records::sign::is_sign;

// A lent file, looked at as that of a job of this shape.
#[derive(Clone, Copy)]
pub struct Shaped<'a> {
    pub file: &'a [u8],
    pub shape: Shape,
}

impl Shaped<'_> {
    // The text of the sign s.
    fn text(&self, s: usize) -> &[u8]
        requires { s < 65536 }
        ensures { result.now ≡ text_at self.now.file.now self.now.shape.parts s }
    {
        label(record_at(self.file, signs_start(self.shape.parts), s), 8)
    }

    // Whether an earlier sign has the text of the sign s.
    fn repeated(&self, s: usize) -> bool
        requires { s < 65536 }
        ensures { Decides (not result) (NewText self.now.file.now self.now.shape.parts s) }
    {
        let text = self.text(s);
        (0..s).any(|t| same_text(self.text(t), text))
    }

    // Whether the record r of the block b is one of the block's kind.
    // A struct of b and r would be made anew for each record of a block, and be no plainer than the two numbers.
    fn is_good(&self, b: usize, r: usize) -> bool
        requires { (b < 4096) × (r < 16) }
        ensures { Decides result (RecordForm self.now.file.now self.now.shape.parts self.now.shape.signs b r) }
    {
        let bytes = record_of(self.file, b, r);
        match self.shape.kind_of(b) {
            Kind::Head => is_head(bytes),
            Kind::Parts => is_part(bytes),
            Kind::Signs => {
                let before = 16 * (b - signs_start(self.shape.parts));
                is_sign(bytes) && !self.repeated(before + r)
            }
            Kind::Acts => act_of(bytes).is_some(),
        }
    }

    // How many records the block b holds, if it is laid out as one of its kind.
    fn read_form(&self, b: usize) -> Result<u8, BlockFault>
        requires { b < 4096 }
        ensures { FormRead self.now.file.now self.now.shape.parts self.now.shape.signs b result }
    {
        read_block(block_at(self.file, b), self.shape.expected(b))
    }

    // The block b: its own fault comes first, then its records in order.
    // The bound on b keeps 512 * b in range; no type has just that bound.
    #[tactic(auto, using(crate::proofs::Forms::expects_few))]
    pub fn check_block(&self, b: usize) -> Result<(), RecordFault>
        requires { b < 4096 }
        ensures { MatchResult result (λ _. GoodBlock self.now.file.now self.now.shape.parts self.now.shape.signs b) (Faulty self.now.file.now self.now.shape.parts self.now.shape.signs b) }
    {
        let count = self.read_form(b)?;
        // by place, here and below: records and blocks are parts of the file, of which no list stands
        for r in 0..usize::from(count) {
            if !self.is_good(b, r) {
                return Err(self.shape.record_fault(b, r + 1));
            }
        }
        Ok(())
    }

    // The blocks from one place up to another, in order.
    pub fn check_blocks(&self, from: usize, to: usize) -> Result<(), RecordFault>
        requires { to ≤ 4096 }
        ensures { MatchResult result (λ _. GoodBlocks self.now.file.now self.now.shape.parts self.now.shape.signs from to) (FirstFault self.now.file.now self.now.shape.parts self.now.shape.signs from to) }
    {
        for b in from..to {
            self.check_block(b)?;
        }
        Ok(())
    }
}
