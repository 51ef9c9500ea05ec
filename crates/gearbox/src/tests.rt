// The two networks that the program runs on mean the same, line by line.
use crate::listed_gearbox::{LINES, NODES, listed_lines};
use listed::lent::Listed;
use network::{Network, ask};
use sample_jobs::jobs::GEARBOX;
use std::test::Fail;

// The last place that is asked for lies past the end of both.
#[test]
fn both_networks_mean_the_same(rt: HostRuntime) -> Result<(), Fail> {
    let closed = GEARBOX.closed()?;
    let lines = listed_lines();
    let mut listed = Listed::new();
    listed.load(NODES, LINES, &lines)?;
    assert_eq!(rt; closed.nodes(), listed.nodes());
    assert_eq!(rt; closed.lines(), listed.lines());
    for place in 0..=LINES {
        assert_eq!(rt; ask(&closed, place), ask(&listed, place));
    }
    Ok(())
}
