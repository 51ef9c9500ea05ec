// The names and texts, as parts of the file.
ghost use Rattle.std.specs.Prelude.{◌≡◌, ◌<◌, ◌≤◌, min, map};
ghost use Rattle.std.specs.List.{slice_get, range_with_len};
ghost use Rattle.std.specs.Option.{option_map};
ghost use Rattle.records.specs.Records.{label_of};
ghost use Rattle.layout.specs.Places.{record_at};
ghost use Rattle.jobfile.specs.Small.{handed_out, small_labels};

use crate::file::JobFile;
use contents::labels::Labels;
use layout::places::{record_at, signs_start};
use records::label::label;

// The first 64 of so many parts or signs.
fn at_most_64(count: u8) -> usize
    ensures { result ≡ min 64 count }
{
    usize::from(count).min(64)
}

// The label, in a field of so many bytes, of the record k of so many, whose blocks begin with `start`.
#[tactic(auto, using(crate::proofs::Listed::listed))]
fn label_at(file: &[u8], start: usize, count: usize, k: usize, size: usize) -> Option<&[u8]>
    requires { (start < 256) × (count ≤ 64) }
    ensures { option_map (λ x. x.now) result ≡ slice_get (map (λ k. label_of size (record_at file.now start k)) (range_with_len 0 count)) k }
{
    if k >= count {
        return None;
    }
    Some(label(record_at(file, start, k), size))
}

#[tactic(auto, using(crate::proofs::Listed::listed))]
impl<'a> Labels for JobFile<'a> {
    ghost labelled = { handed_out };

    ghost small = { small_labels };

    fn parts(&self) -> usize {
        at_most_64(self.part_count())
    }

    fn signs(&self) -> usize {
        at_most_64(self.sign_count())
    }

    fn name(&self, part: usize) -> Option<&[u8]> {
        label_at(self.file, 1, at_most_64(self.part_count()), part, 20)
    }

    fn text(&self, sign: usize) -> Option<&[u8]> {
        let start = signs_start(self.part_count());
        label_at(self.file, start, at_most_64(self.sign_count()), sign, 8)
    }
}
