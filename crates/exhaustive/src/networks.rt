// Small listed networks, and all ways to give each of their lines an amount.
ghost use Rattle.std.specs.Prelude.{◌<◌};

use crate::lines::{bounds_kept, node_kept};
use crate::random::Random;
use crate::sifted::Sifted;
use crate::tally::Tally;
use itertools::Itertools;
use listed::lent::Listed;
use network::line_record::LineRecord;
use std::alloc::{AllocError, Global};
use std::io;

// All lawful flows over lines that carry at most 3.
fn all_flows(
    alloc: Global,
    lines: &[LineRecord],
    nodes: u16,
) -> Result<Vec<Vec<usize>>, AllocError> {
    let choices = lines.iter().map(|_| 0..4usize);
    let mut flows = Vec::new(alloc);
    for amounts in choices.multi_cartesian_product(alloc)? {
        let amounts = amounts?;
        let mut all_nodes = 0..nodes;
        if bounds_kept(lines, &amounts) && all_nodes.all(|node| node_kept(lines, &amounts, node)) {
            flows.push(amounts)?;
        }
    }
    Ok(flows)
}

fn random_line(random: &mut Random, nodes: u16) -> LineRecord {
    let tail = random.below(usize::from(nodes)) as u16;
    let head = random.below(usize::from(nodes)) as u16;
    let most = random.below(4);
    let least = if random.below(3) == 0 {
        random.below(most + 1)
    } else {
        0
    };
    LineRecord::new(tail, head, least as u16, most as u16)
}

// Up to six lines among the nodes; lines from a node to itself, side by side and both ways among them.
fn generate(alloc: Global, random: &mut Random, nodes: u16) -> Result<Vec<LineRecord>, AllocError> {
    let count = random.below(7);
    let mut lines = Vec::new(alloc);
    for _ in 0..count {
        lines.push(random_line(random, nodes))?;
    }
    Ok(lines)
}

// A network of up to four nodes.
fn compare_one(alloc: Global, random: &mut Random, tally: &mut Tally) -> io::Result<()> {
    let nodes = random.below(4) as u16 + 1;
    let lines = generate(alloc, random, nodes)?;
    let mut network = Listed::new();
    network
        .load(usize::from(nodes), lines.len(), &lines)
        .map_err(|_| io::Error::other("a network is refused"))?;
    let flows = all_flows(alloc, &lines, nodes)?;
    tally.compare(&lines, &flows, &Sifted::of(&network));
    Ok(())
}

pub fn compare_networks(alloc: Global, cases: u32) -> io::Result<Tally> {
    let mut random = Random::new(2);
    let mut tally = Tally::default();
    for _ in 0..cases {
        compare_one(alloc, &mut random, &mut tally)?;
    }
    Ok(tally)
}
