// Lines of text in a lent buffer: bytes and decimal numbers, one behind the other.
#![tactic(auto)]

ghost use Rattle.std.specs.Prelude.{◌+◌, ◌≤◌, [], ◌∷◌, length, decimal};
ghost use Rattle.text.specs.Placed.{Placed};
ghost use Rattle.text.specs.Puts.{Puts, room};

use buffers::places::Places;
use itoa::Buffer;

// Puts one byte behind what stands of a text.
pub fn put_byte(text: &mut Places<'_, u8>, byte: u8)
    requires { 1 ≤ room text.old }
    ensures { Puts text.old (byte ∷ []) text.new }
{
    text.push(byte).unwrap();
}

// Puts bytes.
pub fn put(text: &mut Places<'_, u8>, bytes: &[u8])
    requires { length bytes.now ≤ room text.old }
    ensures { Puts text.old bytes.now text.new }
{
    text.extend_from_slice(bytes).unwrap();
}

// Puts a number in decimal digits, with no zero in front.
pub fn put_number(text: &mut Places<'_, u8>, number: usize)
    requires { length (decimal number) ≤ room text.old }
    ensures { Puts text.old (decimal number) text.new }
{
    put(text, Buffer::new().format(number).as_bytes());
}

// Puts bytes at a place of a text, and tells the place behind them. Who lends a Vec, or a part of a slice, into `Places` in the same
// function does not learn what it holds afterwards; this call and the next two say it.
pub fn put_at(text: &mut [u8], at: usize, bytes: &[u8]) -> usize
    requires { at + length bytes.now ≤ length text.old }
    ensures { Placed text.old at bytes.now text.new result }
{
    let mut places = Places::holding(text, at);
    put(&mut places, bytes);
    places.len()
}

// Puts one byte at a place.
pub fn put_byte_at(text: &mut [u8], at: usize, byte: u8) -> usize
    requires { at + 1 ≤ length text.old }
    ensures { Placed text.old at (byte ∷ []) text.new result }
{
    let mut places = Places::holding(text, at);
    put_byte(&mut places, byte);
    places.len()
}

// Puts a number at a place, in decimal digits with no zero in front.
pub fn put_number_at(text: &mut [u8], at: usize, number: usize) -> usize
    requires { at + length (decimal number) ≤ length text.old }
    ensures { Placed text.old at (decimal number) text.new result }
{
    let mut places = Places::holding(text, at);
    put_number(&mut places, number);
    places.len()
}
