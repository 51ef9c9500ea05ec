// The calls: shaft is 14, sift, gear is not 10, sift, undo, sift.
use crate::listed_gearbox::{LINES, NODES};
use index::step::Step;
use layers::entry::{Bound, Entry};
use session::turn::{Buffers, Call, Turn};
use std::alloc::{AllocError, Global};

// The places of the lines of shaft with 14, and of gear with 10.
const SHAFT_14: usize = 3;

const GEAR_10: usize = 4;

fn sift(heap: Global) -> Result<Call, AllocError> {
    Ok(Call::Sift(Buffers {
        flow: vec![in heap; 0u32; LINES]?,
        verdicts: vec![in heap; 0u8; LINES]?,
        bottleneck: vec![in heap; 0u8; NODES]?,
        marks: vec![in heap; 0u8; NODES]?,
        nodes: vec![in heap; 0u16; NODES]?,
        steps: vec![in heap; Step::default(); NODES]?,
    }))
}

pub fn script(heap: Global) -> Result<Vec<Turn>, AllocError> {
    let shaft_is_14 = Call::Lay(Entry {
        line: SHAFT_14,
        bound: Bound::AtLeast,
        amount: 1,
    });
    let gear_is_not_10 = Call::Lay(Entry {
        line: GEAR_10,
        bound: Bound::AtMost,
        amount: 0,
    });
    let calls = [
        shaft_is_14,
        sift(heap)?,
        gear_is_not_10,
        sift(heap)?,
        Call::Undo,
        sift(heap)?,
    ];
    calls
        .into_iter()
        .map(|call| Turn { call, answer: None })
        .collect(heap)
}
