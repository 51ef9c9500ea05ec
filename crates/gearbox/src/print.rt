// Prints each call with its answer, one line each.
use layers::entry::{Bound, Entry};
use sample_jobs::jobs::GEARBOX;
use session::turn::{Answer, Buffers, Call, Turn};
use sift::refusal::SiftRefusal;
use std::{fmt, io};
use verdicts::verdict::Verdict;

// An entry in words.
#[derive(Drop)]
struct Laid(Entry);

impl fmt::Display for Laid {
    fn fmt<W: fmt::Write>(&self, f: &mut fmt::Formatter<W>) -> fmt::Result {
        let bound = match self.0.bound {
            Bound::AtLeast => "at least",
            Bound::AtMost => "at most",
        };
        write!(f, "line {} carries {bound} {}", self.0.line, self.0.amount)
    }
}

// A sign is open to a part where the line of the two is not fixed at 0.
fn is_open(buffers: &Buffers, line: usize) -> bool {
    let fixed = buffers.verdicts.get(line) == Some(&u8::from(Verdict::Fixed));
    !fixed || buffers.flow.get(line).is_some_and(|amount| *amount > 0)
}

// The signs that are open to each part. The two parts have one line each; then each part has a line for each sign.
fn print_open(rt: &impl Print, buffers: &Buffers) -> io::Result<()> {
    for (p, part) in GEARBOX.parts.iter().enumerate() {
        print!(rt; "; {} may have", part.name)?;
        for (s, sign) in GEARBOX.signs.iter().enumerate() {
            if is_open(buffers, 2 + 2 * p + s) {
                print!(rt; " {}", sign.name)?;
            }
        }
    }
    println!(rt; "")
}

// The nodes whose byte in the lent memory is 1, and the sums of the bottleneck.
fn print_bottleneck(
    rt: &impl Print,
    buffers: &Buffers,
    demand: u32,
    supply: u32,
) -> io::Result<()> {
    print!(rt; "no lawful flow; bottleneck of nodes")?;
    for (node, byte) in buffers.bottleneck.iter().enumerate() {
        if *byte == 1 {
            print!(rt; " {node}")?;
        }
    }
    println!(rt; " with demand {demand} and supply {supply}")
}

fn print_sift(rt: &impl Print, buffers: &Buffers, answer: Option<Answer>) -> io::Result<()> {
    print!(rt; "sift: ")?;
    match answer {
        Some(Answer::Sifted(Ok(()))) => {
            print!(rt; "lawful flow found")?;
            print_open(rt, buffers)
        }
        Some(Answer::Sifted(Err(SiftRefusal::NoFlow(demand, supply)))) => print_bottleneck(
            rt, buffers, demand, supply,
        ),
        _ => println!(rt; "refused"),
    }
}

fn print_turn(rt: &impl Print, turn: &Turn) -> io::Result<()> {
    match (&turn.call, turn.answer) {
        (Call::Lay(entry), Some(Answer::Laid(Ok(())))) => println!(rt;
            "enter {}: accepted",
            Laid(*entry)
        ),
        (Call::Lay(entry), _) => println!(rt; "enter {}: refused", Laid(*entry)),
        (Call::Undo, Some(Answer::Undone(Ok(entry)))) => println!(rt;
            "undo {}: accepted",
            Laid(entry)
        ),
        (Call::Undo, _) => println!(rt; "undo: refused"),
        (Call::Sift(buffers), answer) => print_sift(rt, buffers, answer),
    }
}

pub fn print_turns(rt: &impl Print, name: &str, turns: &[Turn]) -> io::Result<()> {
    for turn in turns {
        print!(rt; "{name}: ")?;
        print_turn(rt, turn)?;
    }
    Ok(())
}
