// The numbers of the head.
ghost use Rattle.std.specs.Prelude.{◌≡◌};
ghost use Rattle.records.specs.Records.{head_from};
ghost use Rattle.layout.specs.Places.{head_record, parts_in, signs_in, least_total, most_total};

use crate::file::JobFile;
use layout::places::record_of;
use layout::shape::Shape;
use records::head::HeadRecord;
use records::record::Record;

impl<'a> JobFile<'a> {
    pub(crate) fn head(&self) -> HeadRecord
        ensures { result ≡ head_from (head_record self.now.file.now) }
    {
        HeadRecord::from_bytes(record_of(self.file, 0, 0))
    }

    pub(crate) fn shape(&self) -> Shape
        ensures { result ≡ record { parts = parts_in self.now.file.now; signs = signs_in self.now.file.now } }
    {
        let head = self.head();
        Shape {
            parts: head.parts,
            signs: head.signs,
        }
    }

    pub fn part_count(&self) -> u8
        ensures { result ≡ parts_in self.now.file.now }
    {
        self.head().parts
    }

    pub fn sign_count(&self) -> u8
        ensures { result ≡ signs_in self.now.file.now }
    {
        self.head().signs
    }

    // The bounds of the total.
    pub fn least_total(&self) -> u8
        ensures { result ≡ least_total self.now.file.now }
    {
        self.head().least
    }

    pub fn most_total(&self) -> u8
        ensures { result ≡ most_total self.now.file.now }
    {
        self.head().most
    }
}
