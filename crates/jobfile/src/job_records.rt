// The records of a file's parts and signs.
ghost use Rattle.std.specs.Prelude.{◌≡◌, ℕ, ◌<◌, ◌≤◌, map};
ghost use Rattle.std.specs.List.{range_with_len};
ghost use Rattle.layout.specs.Places.{record_at, parts_in, signs_in};
ghost use Rattle.jobfile.specs.Contents.{parts_of, signs_of};

use crate::file::JobFile;
use arrayvec::ArrayVec;
use layout::places::{record_at, signs_start};
use records::record::Record;
use series::records::{PartRecord, SignRecord};

// The first so many records of a kind, whose blocks begin with `start`.
#[tactic(auto, using(crate::proofs::Listed::listed))]
fn listed<R: Record + Default>(file: &[u8], start: usize, count: u8) -> ArrayVec<R, 64>
    requires { (start < 256) × (count ≤ 64) }
    ensures { result.items ≡ map (λ k. R.described (record_at file.now start k)) (range_with_len 0 count) }
{
    let mut records = ArrayVec::new();
    // by place: records are parts of the file, of which no list stands
    for k in 0..usize::from(count) {
        records.push(R::from_bytes(record_at(file, start, k)));
    }
    records
}

impl<'a> JobFile<'a> {
    pub(crate) fn part_records(&self) -> ArrayVec<PartRecord, 64>
        requires { parts_in self.now.file.now ≤ 64 }
        ensures { result.items ≡ parts_of self.now.file.now }
    {
        listed(self.file, 1, self.part_count())
    }

    pub(crate) fn sign_records(&self) -> ArrayVec<SignRecord, 64>
        requires { signs_in self.now.file.now ≤ 64 }
        ensures { result.items ≡ signs_of self.now.file.now }
    {
        listed(self.file, signs_start(self.part_count()), self.sign_count())
    }
}
