// Loading a job into a one-series network.
ghost use Rattle.std.specs.Prelude.{◌≡◌, ◌^◌, ◌≤◌, map, length, take, MatchResult, nat_le};
ghost use Rattle.series.specs.Load.{load_told, part_of, Sized, SoundParts, SizeFault, PartFault, SignFault, KeepsPart, KeepsSign, KeepsAll, Loading};
ghost use Rattle.series.specs.Sound.{SoundSigns};

use crate::one_series::OneSeries;
use crate::records::{Part, PartRecord, SignRecord, Standing};
use arrayvec::ArrayVec;

// Why a job is not loaded; a part or a sign is told by its place.
#[derive(Clone, Copy, PartialEq, Eq, Debug)]
pub enum LoadRefusal {
    Short,
    TooMany,
    Sign(usize),
    Mask(usize),
    Standing(usize),
}

impl LoadRefusal {
    pub fn number(self) -> u8
        ensures { result ≡ (load_told self).0 }
    {
        match self {
            LoadRefusal::Short => 1,
            LoadRefusal::TooMany => 2,
            LoadRefusal::Sign(_) => 3,
            LoadRefusal::Mask(_) => 4,
            LoadRefusal::Standing(_) => 5,
        }
    }

    // The part or the sign that is told.
    pub fn place(self) -> Option<usize>
        ensures { result ≡ (load_told self).1 }
    {
        match self {
            LoadRefusal::Short | LoadRefusal::TooMany => None,
            LoadRefusal::Sign(place) | LoadRefusal::Mask(place) | LoadRefusal::Standing(place) =>
                Some(place),
        }
    }
}

fn check_size(
    n: usize,
    m: usize,
    parts: &[PartRecord],
    signs: &[SignRecord],
) -> Result<(), LoadRefusal>
    ensures { MatchResult result (λ _. Sized n m parts.now signs.now) (SizeFault n m parts.now signs.now) }
{
    if parts.len() < n || signs.len() < m {
        return Err(LoadRefusal::Short);
    }
    if n > 64 || m > 64 {
        return Err(LoadRefusal::TooMany);
    }
    Ok(())
}

// Whether the mask has a bit at or above m.
fn exceeds(mask: u64, m: usize) -> bool
    requires { m ≤ 64 }
    ensures { result ≡ nat_le (2 ^ m) mask }
{
    m < 64 && mask >> m != 0
}

// The part that the record at a place describes among m signs.
fn kept_part(place: usize, m: usize, given: PartRecord) -> Result<Part, LoadRefusal>
    requires { m ≤ 64 }
    ensures { KeepsPart m place given result }
{
    let standing = Standing::try_from(given.standing).map_err(|_| LoadRefusal::Standing(place))?;
    if exceeds(given.mask, m) {
        return Err(LoadRefusal::Mask(place));
    }
    Ok(Part {
        mask: given.mask,
        standing,
    })
}

// The sign that the record at a place describes.
fn kept_sign(place: usize, given: SignRecord) -> Result<SignRecord, LoadRefusal>
    ensures { KeepsSign place given result }
{
    if given.least > given.most || given.most > 64 {
        return Err(LoadRefusal::Sign(place));
    }
    Ok(given)
}

// What `keep` makes of each record at its place, up to the first that it refuses.
fn keep_each<R: Copy, T: Default + Drop, F: Fn(usize, R) -> Result<T, LoadRefusal>>(
    records: &[R],
    keep: F,
) -> Result<ArrayVec<T, 64>, LoadRefusal>
    requires room { length records.now ≤ 64 }
    requires callable { F.IsAlwaysCallable keep }
    ensures { KeepsAll (F.post keep) records.now result }
{
    let mut kept = ArrayVec::new();
    for (place, record) in records.iter().enumerate() {
        kept.push(keep(place, *record)?);
    }
    Ok(kept)
}

// The first n parts, among m signs.
fn kept_parts(n: usize, m: usize, given: &[PartRecord]) -> Result<ArrayVec<Part, 64>, LoadRefusal>
    requires { (n ≤ length given.now) × (n ≤ 64) × (m ≤ 64) }
    ensures { MatchResult result (λ parts. SoundParts n m given.now × (parts.items ≡ map part_of (take n given.now))) (PartFault n m given.now) }
{
    keep_each(&given[..n], |place, part| kept_part(place, m, part))
}

// The first m signs.
fn kept_signs(m: usize, given: &[SignRecord]) -> Result<ArrayVec<SignRecord, 64>, LoadRefusal>
    requires { (m ≤ length given.now) × (m ≤ 64) }
    ensures { MatchResult result (λ signs. SoundSigns given.now m × (signs.items ≡ take m given.now)) (SignFault m given.now) }
{
    keep_each(&given[..m], kept_sign)
}

impl OneSeries {
    // Replaces the job by that of the first n part records and the first m sign records; a refusal keeps the old one. A number stands
    // beside each slice, since a slice that is shorter than its number is refused.
    pub fn load(
        &mut self,
        n: usize,
        m: usize,
        parts: &[PartRecord],
        signs: &[SignRecord],
    ) -> Result<(), LoadRefusal>
        ensures { Loading n m parts.now signs.now self.old self.new result }
    {
        check_size(n, m, parts, signs)?;
        let parts = kept_parts(n, m, parts)?;
        let signs = kept_signs(m, signs)?;
        *self = OneSeries { parts, signs };
        Ok(())
    }
}
