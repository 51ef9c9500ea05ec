// What lines ask of the amounts that a flow carries over them, by the definitions alone.
ghost use Rattle.std.specs.Iterator.{IsFinite};

use network::line_record::LineRecord;

fn allows(line: &LineRecord, amount: usize) -> bool {
    (usize::from(line.least)..=usize::from(line.most)).contains(&amount)
}

// Every amount lies within the bounds of its line.
pub fn bounds_kept(lines: &[LineRecord], amounts: &[usize]) -> bool {
    lines
        .iter()
        .zip(amounts)
        .all(|(line, amount)| allows(line, *amount))
}

fn total<I: Iterator<Item = usize> + Drop>(amounts: I) -> usize
    requires can { I.can_next amounts }
    requires ends { IsFinite (I.remaining amounts) }
{
    amounts.fold(0, |sum, amount| sum.saturating_add(amount))
}

// What enters a node leaves it.
pub fn node_kept(lines: &[LineRecord], amounts: &[usize], node: u16) -> bool {
    let entering = lines
        .iter()
        .zip(amounts)
        .filter(|(line, _)| line.head == node)
        .map(|(_, amount)| *amount);
    let leaving = lines
        .iter()
        .zip(amounts)
        .filter(|(line, _)| line.tail == node)
        .map(|(_, amount)| *amount);
    total(entering) == total(leaving)
}

// What a set of nodes must take in, and what it can give out.
#[derive(Drop)]
pub struct Cut {
    pub demand: usize,
    pub supply: usize,
}

impl Cut {
    // The set has the nodes whose byte is 1.
    pub fn of(lines: &[LineRecord], set: &[u8]) -> Cut {
        let inside = |node: u16| set.get(usize::from(node)) == Some(&1);
        let entering = lines
            .iter()
            .filter(|line| inside(line.head) && !inside(line.tail));
        let leaving = lines
            .iter()
            .filter(|line| inside(line.tail) && !inside(line.head));
        Cut {
            demand: total(entering.map(|line| usize::from(line.least))),
            supply: total(leaving.map(|line| usize::from(line.most))),
        }
    }
}
