// Stacks of layers, run over a listed network.
use layers::closing::{CloseRefusal, Closing};
use layers::entries::{Entries, LayRefusal, UndoRefusal};
use layers::entry::{Bound, Entry};
use listed::lent::Listed;
use network::Network;
use network::line_record::LineRecord;
use std::test::Fail;

// Written out, since a constant's value may not be a call.
const ACROSS: LineRecord = LineRecord {
    tail: 0,
    head: 1,
    least: 2,
    most: 3,
};

// Each row: how many lines lie below, what closing answers, and how many lines there are then.
#[test]
fn a_full_network_takes_no_last_line(rt: HostRuntime) -> Result<(), Fail> {
    let records = vec![in rt.alloc(); ACROSS; 16384]?;
    let rows = [
        (0, Ok(()), 1),
        (16383, Ok(()), 16384),
        (16384, Err(CloseRefusal::Unfit), 16384),
    ];
    for (count, answer, lines) in rows {
        let mut network = Listed::new();
        network.load(2, count, &records)?;
        let mut closing = Closing::new(network);
        assert_eq!(rt; closing.close(1, 0, 4, 5), answer);
        assert_eq!(rt; closing.lines(), lines);
    }
    Ok(())
}

#[test]
fn layers_pass_the_lines_on(rt: HostRuntime) -> Result<(), Fail> {
    let records = [ACROSS];
    let mut network = Listed::new();
    network.load(2, 1, &records)?;
    let mut closing = Closing::new(Entries::new(network));
    assert_eq!(rt; closing.close(1, 0, 4, 5), Ok(()));
    let outer = Entries::new(closing);
    assert_eq!(rt; outer.nodes(), 2);
    assert_eq!(rt; outer.lines(), 2);
    assert_eq!(rt; outer.line(0), Some((0, 1, 2, 3)));
    assert_eq!(rt; outer.line(1), Some((1, 0, 4, 5)));
    assert_eq!(rt; outer.line(2), None);
    let network = outer.into_inner().into_inner().into_inner();
    assert_eq!(rt; network.lines(), 1);
    Ok(())
}

fn entry(line: usize, bound: Bound, amount: u16) -> Entry {
    Entry {
        line,
        bound,
        amount,
    }
}

// Entries below and above the closing layer act on one line. Each row: an entry laid above, the answer, and the line's bounds then.
#[test]
fn entries_act_through_the_stack(rt: HostRuntime) -> Result<(), Fail> {
    let records = [LineRecord::new(0, 1, 0, 99)];
    let mut network = Listed::new();
    network.load(2, 1, &records)?;
    let mut inner = Entries::new(network);
    assert_eq!(rt; inner.lay(entry(0, Bound::AtLeast, 2)), Ok(()));
    let mut closing = Closing::new(inner);
    assert_eq!(rt; closing.close(1, 0, 0, 5), Ok(()));
    let mut outer = Entries::new(closing);
    let rows = [
        (entry(2, Bound::AtMost, 0), Err(LayRefusal::NoLine), 2, 99),
        (
            entry(0, Bound::AtLeast, 1),
            Err(LayRefusal::OutOfBounds),
            2,
            99,
        ),
        (entry(0, Bound::AtMost, 70), Ok(()), 2, 70),
        (entry(1, Bound::AtMost, 4), Ok(()), 2, 70),
    ];
    for (laid, answer, least, most) in rows {
        assert_eq!(rt; outer.lay(laid), answer);
        assert_eq!(rt; outer.line(0), Some((0, 1, least, most)));
    }
    for amount in 3..65 {
        assert_eq!(rt; outer.lay(entry(0, Bound::AtLeast, amount)), Ok(()));
    }
    assert_eq!(rt;
        outer.lay(entry(0, Bound::AtLeast, 65)),
        Err(LayRefusal::Full)
    );
    assert_eq!(rt; outer.line(0), Some((0, 1, 64, 70)));
    for amount in (3..65).rev() {
        assert_eq!(rt; outer.undo(), Ok(entry(0, Bound::AtLeast, amount)));
    }
    assert_eq!(rt; outer.line(1), Some((1, 0, 0, 4)));
    assert_eq!(rt; outer.undo(), Ok(entry(1, Bound::AtMost, 4)));
    assert_eq!(rt; outer.undo(), Ok(entry(0, Bound::AtMost, 70)));
    assert_eq!(rt; outer.undo(), Err(UndoRefusal::NoEntry));
    assert_eq!(rt; outer.line(0), Some((0, 1, 2, 99)));
    let mut inner = outer.into_inner().into_inner();
    assert_eq!(rt; inner.undo(), Ok(entry(0, Bound::AtLeast, 2)));
    assert_eq!(rt; inner.line(0), Some((0, 1, 0, 99)));
    Ok(())
}
