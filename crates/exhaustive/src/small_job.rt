// A small job by its masks and bounds: its lines and its lawful numberings by the definitions, and what a numbering carries. No code
// is the network's or the judge's, so that the comparison says something of them.
ghost use Rattle.std.specs.Prelude.{◌≤◌, vec_len};

use network::line_record::LineRecord;
use series::records::{Part, SignRecord, Standing};
use std::alloc::{AllocError, Global};
use std::ops::RangeFrom;

#[derive(Drop)]
pub struct Job {
    pub parts: Vec<Part>,
    pub signs: Vec<SignRecord>,
    pub lo: u16,
    pub hi: u16,
    ghost few_parts: { vec_len parts ≤ 8 },
    ghost few_signs: { vec_len signs ≤ 8 },
}

fn allowed(mask: u64, sign: usize) -> bool {
    sign < 64 && (mask >> sign) % 2 == 1
}

// How many parts have this sign.
fn uses(numbering: &[Option<usize>], sign: usize) -> usize {
    numbering.iter().filter(|has| **has == Some(sign)).count()
}

// How many parts have a sign.
fn signed(numbering: &[Option<usize>]) -> usize {
    numbering.iter().filter(|has| has.is_some()).count()
}

fn part_kept(part: &Part, sign: Option<usize>) -> bool {
    match sign {
        None => part.standing != Standing::Required,
        Some(sign) => part.standing != Standing::LeftOut && allowed(part.mask, sign),
    }
}

fn sign_kept(sign: &SignRecord, uses: usize) -> bool {
    (usize::from(sign.least)..=usize::from(sign.most)).contains(&uses)
}

// Source to part, by the part's standing.
fn standing_line(part: &Part, node: u16) -> LineRecord {
    let least = u16::from(part.standing == Standing::Required);
    let most = u16::from(part.standing != Standing::LeftOut);
    LineRecord::new(0, node, least, most)
}

impl Job {
    fn sign_nodes(&self) -> RangeFrom<u16> {
        (1 + self.parts.len()) as u16..
    }

    fn sink(&self) -> u16 {
        (1 + self.parts.len() + self.signs.len()) as u16
    }

    // Source to parts, parts to signs, signs to sink, sink to source.
    pub fn lines(&self, alloc: Global) -> Result<Vec<LineRecord>, AllocError> {
        let sink = self.sink();
        let parts = self.parts.iter().zip(1u16..);
        let mut lines = Vec::new(alloc);
        lines.extend(parts.map(|(part, node)| standing_line(part, node)))?;
        for (part, node) in self.parts.iter().zip(1u16..) {
            let signs = (0..self.signs.len()).zip(self.sign_nodes());
            lines.extend(signs.map(|(sign, head)| {
                LineRecord::new(node, head, 0, u16::from(allowed(part.mask, sign)))
            }))?;
        }
        let signs = self.signs.iter().zip(self.sign_nodes());
        lines.extend(signs.map(|(sign, node)| {
            LineRecord::new(node, sink, u16::from(sign.least), u16::from(sign.most))
        }))?;
        lines.push(LineRecord::new(sink, 0, self.lo, self.hi))?;
        Ok(lines)
    }

    // The rules of the parts, of the signs and of the total.
    pub fn is_lawful(&self, numbering: &[Option<usize>]) -> bool {
        let mut parts = self.parts.iter().zip(numbering);
        let mut signs = self.signs.iter().enumerate();
        parts.all(|(part, sign)| part_kept(part, *sign))
            && signs.all(|(s, sign)| sign_kept(sign, uses(numbering, s)))
            && (usize::from(self.lo)..=usize::from(self.hi)).contains(&signed(numbering))
    }

    // What the numbering carries over each line, in the order of the lines.
    pub fn carried(
        &self,
        alloc: Global,
        numbering: &[Option<usize>],
    ) -> Result<Vec<usize>, AllocError> {
        let signs = self.signs.len();
        let mut amounts = Vec::new(alloc);
        amounts.extend(numbering.iter().map(|has| usize::from(has.is_some())))?;
        for has in numbering {
            amounts.extend((0..signs).map(|sign| usize::from(*has == Some(sign))))?;
        }
        amounts.extend((0..signs).map(|sign| uses(numbering, sign)))?;
        amounts.push(signed(numbering))?;
        Ok(amounts)
    }
}
