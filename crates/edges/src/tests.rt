// Sifts of small networks as a table, and of the largest.
use index::step::Step;
use listed::lent::Listed;
use network::line_record::LineRecord;
use sift::memory::Memory;
use sift::refusal::SiftRefusal;
use sift::sift::sift;
use std::alloc::Global;
use std::process::Abort;
use std::test::Fail;

// What a sift told, and what it wrote of the lines and of the nodes.
#[derive(Drop)]
struct Told {
    answer: Result<(), SiftRefusal>,
    verdicts: Vec<u8>,
    bottleneck: Vec<u8>,
}

// Sifts two nodes and three lines in memory of four places; the last place keeps what it held.
fn sift_three(
    rt: &impl Abort,
    lines: &[LineRecord],
    verdicts: &mut [u8; 4],
) -> Result<Result<(), SiftRefusal>, Fail> {
    let mut network = Listed::new();
    network.load(2, 3, lines)?;
    let mut marks = [9; 4];
    let mut nodes = [9; 4];
    let mut memory = Memory {
        flow: &mut [9; 4],
        verdicts,
        bottleneck: &mut [9; 4],
        marks: &mut marks,
        nodes: &mut nodes,
        steps: &mut [Step::default(); 4],
    };
    let answer = sift(&network, &mut memory);
    assert_eq!(rt; marks, [0, 0, 9, 9]);
    assert_eq!(rt; nodes, [0, 0, 9, 9]);
    Ok(answer)
}

// Parallel lines, lines both ways, a line from a node to itself.
#[test]
fn verdicts_of_small_networks(rt: HostRuntime) -> Result<(), Fail> {
    let rows = [
        (
            [
                LineRecord::new(0, 1, 0, 1),
                LineRecord::new(0, 1, 0, 1),
                LineRecord::new(1, 0, 1, 1),
            ],
            [0, 0, 1, 9],
            Ok(()),
        ),
        (
            [
                LineRecord::new(0, 1, 0, 1),
                LineRecord::new(0, 1, 0, 1),
                LineRecord::new(1, 0, 2, 3),
            ],
            [1, 1, 1, 9],
            Ok(()),
        ),
        (
            [
                LineRecord::new(0, 1, 0, 2),
                LineRecord::new(1, 0, 0, 2),
                LineRecord::new(0, 0, 0, 3),
            ],
            [0, 0, 0, 9],
            Ok(()),
        ),
        (
            [
                LineRecord::new(0, 1, 2, 2),
                LineRecord::new(1, 0, 0, 1),
                LineRecord::new(0, 0, 3, 3),
            ],
            [0, 0, 0, 9],
            Err(SiftRefusal::NoFlow(2, 1)),
        ),
    ];
    for (lines, expected, answer) in rows {
        let mut verdicts = [9; 4];
        assert_eq!(rt; sift_three(&rt, &lines, &mut verdicts)?, answer);
        assert_eq!(rt; verdicts, expected);
    }
    Ok(())
}

// Sifts 1,024 nodes and 16,384 lines.
fn sift_largest(heap: Global, lines: &[LineRecord]) -> Result<Told, Fail> {
    let mut network = Listed::new();
    network.load(1024, 16384, lines)?;
    let mut flow = vec![in heap; 0; 16384]?;
    let mut verdicts = vec![in heap; 0; 16384]?;
    let mut bottleneck = vec![in heap; 0; 1024]?;
    let mut marks = vec![in heap; 0; 1024]?;
    let mut nodes = vec![in heap; 0; 1024]?;
    let mut steps = vec![in heap; Step::default(); 1024]?;
    let mut memory = Memory {
        flow: &mut flow,
        verdicts: &mut verdicts,
        bottleneck: &mut bottleneck,
        marks: &mut marks,
        nodes: &mut nodes,
        steps: &mut steps,
    };
    let answer = sift(&network, &mut memory);
    Ok(Told {
        answer,
        verdicts,
        bottleneck,
    })
}

// A ring: each node has sixteen parallel lines to the next, and each line carries its most.
#[test]
fn the_largest_network(rt: HostRuntime) -> Result<(), Fail> {
    let lines: Vec<LineRecord> = (0..16384u16)
        .map(|k| LineRecord::new(k % 1024, (k + 1) % 1024, k % 2, 65535))
        .collect(rt.alloc())?;
    let told = sift_largest(rt.alloc(), &lines)?;
    assert_eq!(rt; told.answer, Ok(()));
    assert!(rt; !told.verdicts.contains(&1));
    Ok(())
}

// As large, and tight: 64 lines must carry 65,535 each, and the way back is too narrow. The sift searches until that is sure.
#[test]
fn the_largest_network_without_a_flow(rt: HostRuntime) -> Result<(), Fail> {
    let tight = (0..64u16).map(|k| LineRecord::new(k, 1023 - k, 65535, 65535));
    let narrow = (64..16384u32).map(|k| {
        let tail = (k * 31 % 1024) as u16;
        let head = (k * 37 / 5 % 1024) as u16;
        LineRecord::new(tail, head, 0, (k * 13 % 4096) as u16)
    });
    let lines: Vec<LineRecord> = tight.chain(narrow).collect(rt.alloc())?;
    let told = sift_largest(rt.alloc(), &lines)?;
    assert!(rt; told.answer.is_err());
    assert!(rt; told.bottleneck.contains(&1));
    Ok(())
}
