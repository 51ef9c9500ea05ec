// The line of an act, written into a lent text.
ghost use Rattle.std.specs.Prelude.{◌<◌, ◌≤◌, length};
ghost use Rattle.acts.specs.Changes.{asked};
ghost use Rattle.acts.specs.Lines.{LineOn, accepted_line, act_line, refused_line};
ghost use Rattle.text.specs.Placed.{Placed};

use crate::act::act;
use crate::change::Change;
use crate::refusal::ActRefusal;
use buffers::places::Places;
use layers::entries::Entries;
use network::legend::Legend;
use text::{put, put_byte, put_number};

// The longest line: a number of 20 digits, a space, two letters or digits, the end of the line.
pub const ACT_LINE: usize = 24;

// The line of an accepted act with this number.
pub fn put_accepted(text: &mut [u8], number: usize) -> usize
    requires { 24 ≤ length text.old }
    ensures { Placed text.old 0 (accepted_line number) text.new result }
{
    let mut line = Places::new(text);
    put_number(&mut line, number);
    put(&mut line, b" OK\n");
    line.len()
}

// The line of an act with this number that was refused. It tells the number of a refusal, whose enum may be another crate's: that of a listing is.
pub fn put_refused(text: &mut [u8], number: usize, refusal: u8) -> usize
    requires room { 24 ≤ length text.old }
    requires short { refusal < 100 }
    ensures { Placed text.old 0 (refused_line number refusal) text.new result }
{
    let mut line = Places::new(text);
    put_number(&mut line, number);
    put_byte(&mut line, b' ');
    put_number(&mut line, usize::from(refusal));
    put_byte(&mut line, b'\n');
    line.len()
}

// The line of an act with this answer.
fn put_answer(text: &mut [u8], number: usize, answer: Result<(), ActRefusal>) -> usize
    requires { 24 ≤ length text.old }
    ensures { Placed text.old 0 (act_line number answer) text.new result }
{
    match answer {
        Ok(()) => put_accepted(text, number),
        Err(refusal) => put_refused(text, number, refusal.number()),
    }
}

// Runs a change as the act with this number, writes its line and tells how long that is. Refused where the text is too short for any
// line, and then nothing is done.
pub fn act_line<L: Legend>(
    layer: &mut Entries<L>,
    number: usize,
    change: Change,
    text: &mut [u8],
) -> Result<usize, ActRefusal>
    ensures { LineOn L.Network.meaning (asked (L.Legend.key layer.old.below) change) number layer.old layer.new text.old text.new result }
{
    if text.len() < ACT_LINE {
        return Err(ActRefusal::Short);
    }
    let answer = act(layer, change);
    Ok(put_answer(text, number, answer))
}
