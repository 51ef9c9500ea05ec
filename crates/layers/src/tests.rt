// Layers, run over a network of two nodes without lines.
ghost use Rattle.std.specs.Prelude.{[]};
ghost use Rattle.std.proofs.Common.{arith};

use crate::closing::{CloseRefusal, Closing};
use crate::entries::{Entries, LayRefusal, UndoRefusal};
use crate::entry::{Bound, Entry};
use network::Network;
use std::test::Fail;

#[derive(Drop)]
struct Bare;

impl Network for Bare {
    ghost meaning = { λ _. record { nodes = 2; lines = [] } };

    ghost limits = { λ _. record { nodes = omega arith; count = omega arith; each = λ k h. let never : ⊥ = omega arith in absurd never } };

    fn nodes(&self) -> usize {
        2
    }

    fn lines(&self) -> usize {
        0
    }

    fn line(&self, _place: usize) -> Option<(u16, u16, u16, u16)> {
        None
    }
}

fn at_least(line: usize, amount: u16) -> Entry {
    Entry {
        line,
        bound: Bound::AtLeast,
        amount,
    }
}

fn at_most(line: usize, amount: u16) -> Entry {
    Entry {
        line,
        bound: Bound::AtMost,
        amount,
    }
}

// One line from node 0 to node 1.
fn one_line(least: u16, most: u16) -> Result<Closing<Bare>, CloseRefusal> {
    let mut network = Closing::new(Bare);
    network.close(0, 1, least, most)?;
    Ok(network)
}

// Each row: the line, and what closing with it answers.
#[test]
fn a_last_line_fits_or_not(rt: HostRuntime) {
    let rows = [
        (2, 0, 0, 1, Err(CloseRefusal::Unfit)),
        (0, 2, 0, 1, Err(CloseRefusal::Unfit)),
        (0, 1, 2, 1, Err(CloseRefusal::Unfit)),
        (1, 1, 1, 1, Ok(())),
        (0, 1, 0, 65535, Ok(())),
    ];
    for (tail, head, least, most, answer) in rows {
        let mut network = Closing::new(Bare);
        assert_eq!(rt; network.close(tail, head, least, most), answer);
    }
}

#[test]
fn a_closed_layer_is_told_before_an_unfit_line(rt: HostRuntime) -> Result<(), Fail> {
    let mut network = one_line(1, 4)?;
    assert_eq!(rt; network.close(0, 5, 2, 1), Err(CloseRefusal::AlreadyClosed));
    assert_eq!(rt; network.nodes(), 2);
    assert_eq!(rt; network.lines(), 1);
    assert_eq!(rt; network.line(0), Some((0, 1, 1, 4)));
    assert_eq!(rt; network.line(1), None);
    Ok(())
}

// Each row: an entry, what laying it answers, and the bounds then.
#[test]
fn amounts_at_the_edges(rt: HostRuntime) -> Result<(), Fail> {
    let mut layer = Entries::new(one_line(2, 5)?);
    let rows = [
        (at_least(1, 9), Err(LayRefusal::NoLine), 2, 5),
        (at_least(0, 1), Err(LayRefusal::OutOfBounds), 2, 5),
        (at_least(0, 6), Err(LayRefusal::OutOfBounds), 2, 5),
        (at_most(0, 6), Err(LayRefusal::OutOfBounds), 2, 5),
        (at_least(0, 2), Ok(()), 2, 5),
        (at_most(0, 5), Ok(()), 2, 5),
        (at_least(0, 3), Ok(()), 3, 5),
        (at_most(0, 2), Err(LayRefusal::OutOfBounds), 3, 5),
        (at_most(0, 3), Ok(()), 3, 3),
        (at_least(0, 3), Ok(()), 3, 3),
    ];
    for (entry, answer, least, most) in rows {
        assert_eq!(rt; layer.lay(entry), answer);
        assert_eq!(rt; layer.line(0), Some((0, 1, least, most)));
    }
    assert_eq!(rt; layer.undo(), Ok(at_least(0, 3)));
    assert_eq!(rt; layer.undo(), Ok(at_most(0, 3)));
    assert_eq!(rt; layer.line(0), Some((0, 1, 3, 5)));
    assert_eq!(rt; layer.undo(), Ok(at_least(0, 3)));
    assert_eq!(rt; layer.line(0), Some((0, 1, 2, 5)));
    Ok(())
}

#[test]
fn sixty_four_entries_stand(rt: HostRuntime) -> Result<(), Fail> {
    let mut layer = Entries::new(one_line(0, 99)?);
    for amount in 0..64 {
        assert_eq!(rt; layer.lay(at_least(0, amount)), Ok(()));
    }
    assert_eq!(rt; layer.lay(at_least(0, 64)), Err(LayRefusal::Full));
    assert_eq!(rt; layer.lay(at_most(0, 62)), Err(LayRefusal::OutOfBounds));
    assert_eq!(rt; layer.lay(at_most(1, 64)), Err(LayRefusal::NoLine));
    assert_eq!(rt; layer.line(0), Some((0, 1, 63, 99)));
    for amount in (0..64).rev() {
        assert_eq!(rt; layer.undo(), Ok(at_least(0, amount)));
    }
    assert_eq!(rt; layer.undo(), Err(UndoRefusal::NoEntry));
    assert_eq!(rt; layer.line(0), Some((0, 1, 0, 99)));
    Ok(())
}

#[test]
fn layers_stand_on_layers(rt: HostRuntime) -> Result<(), Fail> {
    let mut inner = Entries::new(one_line(0, 9)?);
    assert_eq!(rt; inner.lay(at_least(0, 2)), Ok(()));
    let mut closed = Closing::new(inner);
    assert_eq!(rt; closed.close(1, 0, 0, 5), Ok(()));
    let mut outer = Entries::new(closed);
    assert_eq!(rt; outer.lay(at_most(0, 7)), Ok(()));
    assert_eq!(rt; outer.lay(at_least(0, 1)), Err(LayRefusal::OutOfBounds));
    assert_eq!(rt; outer.lay(at_most(1, 4)), Ok(()));
    assert_eq!(rt; outer.lines(), 2);
    assert_eq!(rt; outer.line(0), Some((0, 1, 2, 7)));
    assert_eq!(rt; outer.line(1), Some((1, 0, 0, 4)));
    assert_eq!(rt; outer.line(2), None);
    let closed = outer.into_inner();
    assert_eq!(rt; closed.line(1), Some((1, 0, 0, 5)));
    let inner = closed.into_inner();
    assert_eq!(rt; inner.lines(), 1);
    assert_eq!(rt; inner.line(0), Some((0, 1, 2, 9)));
    Ok(())
}
