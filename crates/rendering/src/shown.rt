// What a sift left, and the lines of text in which it is shown.
ghost use Rattle.std.specs.Prelude.{◌≡◌, ◌*◌, ◌≤◌, [], ◌∷◌, length, slice_index_or};
ghost use Rattle.rendering.specs.Render.{in_order, mark as mark_of, part_text, render, sign_text};
ghost use Rattle.rendering.specs.Shown.{table};
ghost use Rattle.rendering.specs.Tables.{fixed_at};
ghost use Rattle.text.specs.Placed.{Placed};
ghost use Rattle.text.specs.Puts.{Puts, room};

use buffers::places::Places;
use contents::labels::Labels;
use network::legend::Legend;
use text::{put, put_byte};

// The memory of a sift of a legend, by whose labels it is shown.
#[derive(Drop)]
pub struct Shown<'a, L, B> {
    pub legend: &'a L,
    pub labels: &'a B,
    pub flow: &'a [u32],
    pub verdicts: &'a [u8],
}

impl<L: Legend, B: Labels> Shown<'_, L, B> {
    // Whether a line is shown as fixed at this amount; a sift writes verdicts into lent memory as bytes, and 1 is fixed.
    fn is_fixed_at(&self, line: Option<usize>, amount: u32) -> bool
        ensures { result ≡ fixed_at self.now.flow.now self.now.verdicts.now line amount }
    {
        let Some(line) = line else {
            return false;
        };
        self.verdicts.get(line) == Some(&1) && self.flow.get(line) == Some(&amount)
    }

    // The mark of a part.
    fn mark(&self, part: usize) -> u8
        ensures { result ≡ mark_of (table L.Legend.key self.now) part }
    {
        let line = self.legend.part_line(part);
        if self.is_fixed_at(line, 1) {
            b'!'
        } else if self.is_fixed_at(line, 0) {
            b'-'
        } else {
            b'?'
        }
    }

    // A space and a sign, if the part may have it.
    fn put_sign(&self, part: usize, sign: usize, text: &mut Places<'_, u8>)
        requires { 9 ≤ room text.old }
        ensures { Puts text.old (sign_text (B.Labels.labelled self.now.labels.now) (table L.Legend.key self.now) part sign) text.new }
    {
        if !self.is_fixed_at(self.legend.pair_line(part, sign), 0) {
            put_byte(text, b' ');
            put(text, self.labels.text(sign).unwrap_or(&[]));
        }
    }

    // The signs that the part may have. They are places that legend and labels are asked at, of which no list stands; so are parts.
    fn put_signs(&self, part: usize, text: &mut Places<'_, u8>)
        requires { 9 * length (B.Labels.labelled self.now.labels.now).texts ≤ room text.old }
        ensures { Puts text.old (in_order (length (B.Labels.labelled self.now.labels.now).texts) (sign_text (B.Labels.labelled self.now.labels.now) (table L.Legend.key self.now) part)) text.new }
    {
        for sign in 0..self.labels.signs() {
            self.put_sign(part, sign, text);
        }
    }

    // The line of a part: at most 20 bytes of a name, a space, a mark, 64 signs of at most 9 bytes each, the end of the line.
    fn put_part(&self, part: usize, text: &mut Places<'_, u8>)
        requires { 599 ≤ room text.old }
        ensures { Puts text.old (part_text (B.Labels.labelled self.now.labels.now) (table L.Legend.key self.now) part) text.new }
    {
        put(text, self.labels.name(part).unwrap_or(&[]));
        put_byte(text, b' ');
        put_byte(text, self.mark(part));
        self.put_signs(part, text);
        put_byte(text, b'\n');
    }

    // The line of each part, at the front of the text; 64 lines of 599 bytes fit. Tells how long they are.
    pub fn put_parts(&self, text: &mut [u8]) -> usize
        requires { 40960 ≤ length text.old }
        ensures { Placed text.old 0 (render (B.Labels.labelled self.now.labels.now) (table L.Legend.key self.now)) text.new result }
    {
        let mut text = Places::new(text);
        for part in 0..self.labels.parts() {
            self.put_part(part, &mut text);
        }
        text.len()
    }
}
