// The memory that a sift is lent, of any length and content.
use index::step::Step;

pub mod size;

#[derive(Drop)]
pub struct Memory<'a> {
    // what each line carries
    pub flow: &'a mut [u32],
    // a byte for each line: 1 if it is fixed, 0 if it is free
    pub verdicts: &'a mut [u8],
    // a byte for each node: 1 if it is of the bottleneck
    pub bottleneck: &'a mut [u8],
    // room for the marks of a search, and for its lists of nodes and of steps
    pub marks: &'a mut [u8],
    pub nodes: &'a mut [u16],
    pub steps: &'a mut [Step],
}
