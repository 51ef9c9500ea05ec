// The calls of a session and their answers.
use index::step::Step;
use layers::entries::{LayRefusal, UndoRefusal};
use layers::entry::Entry;
use sift::refusal::SiftRefusal;

// The memory of a sift, of any length and content.
#[derive(Drop)]
pub struct Buffers {
    pub flow: Vec<u32>,
    pub verdicts: Vec<u8>,
    pub bottleneck: Vec<u8>,
    pub marks: Vec<u8>,
    pub nodes: Vec<u16>,
    pub steps: Vec<Step>,
}

#[derive(Drop)]
pub enum Call {
    Lay(Entry),
    Undo,
    Sift(Buffers),
}

#[derive(Clone, Copy)]
pub enum Answer {
    Laid(Result<(), LayRefusal>),
    Undone(Result<Entry, UndoRefusal>),
    Sifted(Result<(), SiftRefusal>),
}

// A call, and its answer once it was made.
#[derive(Drop)]
pub struct Turn {
    pub call: Call,
    pub answer: Option<Answer>,
}
