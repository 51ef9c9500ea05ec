// A few loads, run.
use crate::lent::Listed;
use crate::refusal::ListedRefusal;
use network::Network;
use network::line_record::LineRecord;
use std::test::Fail;

// Both are written out, since a constant's value may not be a call.
const LOOP: LineRecord = LineRecord {
    tail: 0,
    head: 0,
    least: 0,
    most: 1,
};

const ACROSS: LineRecord = LineRecord {
    tail: 0,
    head: 1,
    least: 2,
    most: 3,
};

#[test]
fn the_empty_network(rt: HostRuntime) {
    let network = Listed::new();
    assert_eq!(rt; network.nodes(), 0);
    assert_eq!(rt; network.lines(), 0);
    assert_eq!(rt; network.line(0), None);
}

#[test]
fn a_load_replaces_the_one_before(rt: HostRuntime) {
    let first = [LOOP, ACROSS];
    let second = [ACROSS];
    let mut network = Listed::new();
    assert_eq!(rt; network.load(2, 2, &first), Ok(()));
    assert_eq!(rt; network.line(1), Some((0, 1, 2, 3)));
    assert_eq!(rt; network.load(3, 1, &second), Ok(()));
    assert_eq!(rt; network.nodes(), 3);
    assert_eq!(rt; network.lines(), 1);
    assert_eq!(rt; network.line(0), Some((0, 1, 2, 3)));
    assert_eq!(rt; network.line(1), None);
}

#[test]
fn a_refusal_keeps_the_network(rt: HostRuntime) {
    let records = [LOOP, ACROSS];
    let mut network = Listed::new();
    assert_eq!(rt; network.load(1, 1, &records), Ok(()));
    assert_eq!(rt; network.load(1025, 3, &records), Err(ListedRefusal::Short));
    assert_eq!(rt;
        network.load(1, 2, &records),
        Err(ListedRefusal::BadLine(1))
    );
    assert_eq!(rt; network.nodes(), 1);
    assert_eq!(rt; network.lines(), 1);
    assert_eq!(rt; network.line(0), Some((0, 0, 0, 1)));
}

#[test]
fn the_first_bad_line_is_told(rt: HostRuntime) {
    let above = LineRecord::new(0, 1, 4, 3);
    let records = [ACROSS, above, LineRecord::new(2, 0, 0, 0), above];
    let mut network = Listed::new();
    assert_eq!(rt; network.load(2, 1, &records), Ok(()));
    assert_eq!(rt;
        network.load(2, 4, &records),
        Err(ListedRefusal::BadLine(1))
    );
    assert_eq!(rt;
        network.load(1, 4, &records),
        Err(ListedRefusal::BadLine(0))
    );
}

#[test]
fn limits(rt: HostRuntime) -> Result<(), Fail> {
    let records = vec![in rt.alloc(); LOOP; 16385]?;
    let mut network = Listed::new();
    assert_eq!(rt; network.load(1024, 16384, &records), Ok(()));
    assert_eq!(rt;
        network.load(1025, 16384, &records),
        Err(ListedRefusal::TooLarge)
    );
    assert_eq!(rt;
        network.load(1024, 16385, &records),
        Err(ListedRefusal::TooLarge)
    );
    assert_eq!(rt; network.nodes(), 1024);
    assert_eq!(rt; network.lines(), 16384);
    Ok(())
}
