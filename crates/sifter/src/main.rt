// Sifts a few small networks, and prints each action: what every line carries and whether it is fixed, or a bottleneck.
#![tactic(auto)]

use index::step::Step;
use listed::lent::Listed;
use network::line_record::LineRecord;
use sift::memory::Memory;
use sift::refusal::SiftRefusal;
use sift::sift::sift;
use std::io;
use verdicts::verdict::Verdict;

fn print_lines(rt: &impl Print, lines: &[LineRecord], memory: &Memory<'_>) -> io::Result<()> {
    let shown = memory.flow.iter().zip(memory.verdicts.iter());
    for (record, (amount, verdict)) in lines.iter().zip(shown) {
        print!(rt;
            "; line {} to {} at {}..{} carries {amount}, {}",
            record.tail,
            record.head,
            record.least,
            record.most,
            if *verdict == u8::from(Verdict::Fixed) {
                "fixed"
            } else {
                "free"
            }
        )?;
    }
    println!(rt; "")
}

// The nodes whose byte in the lent memory is 1, and the sums of the bottleneck.
fn print_bottleneck(rt: &impl Print, bytes: &[u8], demand: u32, supply: u32) -> io::Result<()> {
    print!(rt; "no lawful flow; bottleneck")?;
    for (node, byte) in bytes.iter().enumerate() {
        if *byte == 1 {
            print!(rt; " {node}")?;
        }
    }
    println!(rt; ", demand {demand}, supply {supply}")
}

// Loads a listed network of so many nodes and sifts it, in memory for eight nodes and eight lines.
fn show(rt: &impl Print, name: &str, nodes: usize, lines: &[LineRecord]) -> io::Result<()> {
    let mut network = Listed::new();
    print!(rt; "load {name}: ")?;
    if let Err(refusal) = network.load(nodes, lines.len(), lines) {
        return println!(rt; "refused, {}", refusal.number());
    }
    println!(rt; "loaded")?;
    let mut memory = Memory {
        flow: &mut [0; 8],
        verdicts: &mut [0; 8],
        bottleneck: &mut [0; 8],
        marks: &mut [0; 8],
        nodes: &mut [0; 8],
        steps: &mut [Step::default(); 8],
    };
    print!(rt; "sift {name}: ")?;
    match sift(&network, &mut memory) {
        Ok(()) => {
            print!(rt; "lawful flow found")?;
            print_lines(rt, lines, &memory)
        }
        Err(SiftRefusal::Short) => println!(rt; "refused, 1: a buffer is short"),
        Err(SiftRefusal::NoFlow(demand, supply)) => print_bottleneck(
            rt,
            memory.bottleneck,
            demand,
            supply,
        ),
    }
}

fn main(rt: HostRuntime) -> io::Result<()> {
    show(
        &rt,
        "a ring",
        3,
        &[
            LineRecord::new(0, 1, 1, 1),
            LineRecord::new(1, 2, 0, 2),
            LineRecord::new(2, 0, 1, 1),
        ],
    )?;
    show(
        &rt,
        "a line from a node to itself",
        1,
        &[LineRecord::new(0, 0, 0, 3)],
    )?;
    show(
        &rt,
        "a tight line from a node to itself",
        1,
        &[LineRecord::new(0, 0, 3, 3)],
    )?;
    show(&rt, "the empty network", 0, &[])?;
    show(
        &rt,
        "a ring that is too tight",
        3,
        &[
            LineRecord::new(0, 1, 2, 3),
            LineRecord::new(1, 2, 0, 1),
            LineRecord::new(2, 0, 0, 3),
        ],
    )
}
