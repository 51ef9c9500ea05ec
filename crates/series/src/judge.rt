// The judge: whether a numbering by hand is lawful, and if not, the first rule that it breaks.
ghost use Rattle.std.specs.Prelude.{◌≡◌, ◌≤◌, length, Decides, MatchOption};
ghost use Rattle.series.specs.Job.{job_of, part_count, sign_count};
ghost use Rattle.series.specs.Numbering.{judge_told, PlaceKnown, StandingKept, InMask, PartKept, PartsKept, SignsKept, FirstPart, FirstSign, Verdict, Judged};
ghost use Rattle.series.specs.Numbering.{uses as uses_of, signed as signed_of};

use crate::one_series::OneSeries;
use crate::records::{Part, SignRecord, Standing};

// The byte of a part without a sign: a numbering is handed over in bytes.
pub const UNSIGNED: u8 = 255;

// The first rule that a numbering breaks: that of the part or the sign at this place, or that of the total, which is told.
#[derive(Clone, Copy, PartialEq, Eq, Debug)]
pub enum JudgeRefusal {
    Short,
    Part(usize),
    Sign(usize),
    Total(usize),
}

impl JudgeRefusal {
    pub fn number(self) -> u8
        ensures { result ≡ (judge_told self).0 }
    {
        match self {
            JudgeRefusal::Short => 1,
            JudgeRefusal::Part(_) => 21,
            JudgeRefusal::Sign(_) => 22,
            JudgeRefusal::Total(_) => 23,
        }
    }

    // The part, the sign or the total that is told.
    pub fn value(self) -> Option<usize>
        ensures { result ≡ (judge_told self).1 }
    {
        match self {
            JudgeRefusal::Short => None,
            JudgeRefusal::Part(value) | JudgeRefusal::Sign(value) | JudgeRefusal::Total(value) =>
                Some(value),
        }
    }
}

impl Standing {
    // Whether a part of this standing may have the byte.
    fn kept_by(self, byte: u8) -> bool
        ensures { Decides result (StandingKept self byte) }
    {
        match self {
            Standing::LeftOut => byte == UNSIGNED,
            Standing::Optional => true,
            Standing::Required => byte != UNSIGNED,
        }
    }
}

// How many parts have this sign. A loop, since the count of a filter takes twice as long.
pub fn uses(bytes: &[u8], sign: usize) -> usize
    ensures { result ≡ uses_of bytes.now sign }
{
    let mut count = 0;
    for byte in bytes {
        if usize::from(*byte) == sign {
            count += 1;
        }
    }
    count
}

// How many parts have a sign.
pub fn signed(bytes: &[u8]) -> usize
    ensures { result ≡ signed_of bytes.now }
{
    let mut count = 0;
    for byte in bytes {
        if *byte != UNSIGNED {
            count += 1;
        }
    }
    count
}

impl SignRecord {
    // Whether the sign is used as often as its bounds have it.
    fn kept_by(self, count: usize) -> bool
        ensures { Decides result ((self.least ≤ count) × (count ≤ self.most)) }
    {
        (usize::from(self.least)..=usize::from(self.most)).contains(&count)
    }
}

impl OneSeries {
    fn place_known(&self, byte: u8) -> bool
        ensures { Decides result (PlaceKnown (job_of self.now) byte) }
    {
        usize::from(byte) < self.signs.len() || byte == UNSIGNED
    }

    fn in_mask(&self, part: Part, byte: u8) -> bool
        ensures { Decides result (InMask (job_of self.now) part.mask byte) }
    {
        let sign = usize::from(byte);
        sign >= self.signs.len() || part.allows(sign)
    }

    fn part_rule_kept(&self, part: Part, byte: u8) -> bool
        ensures { Decides result (PartKept (job_of self.now) part byte) }
    {
        self.place_known(byte) && part.standing.kept_by(byte) && self.in_mask(part, byte)
    }

    fn first_broken_part(&self, bytes: &[u8]) -> Option<usize>
        requires { length bytes.now ≡ part_count (job_of self.now) }
        ensures { MatchOption result (PartsKept (job_of self.now) bytes.now (part_count (job_of self.now))) (FirstPart (job_of self.now) bytes.now) }
    {
        self.parts
            .iter()
            .zip(bytes)
            .position(|(part, byte)| !self.part_rule_kept(*part, *byte))
    }

    fn first_broken_sign(&self, bytes: &[u8]) -> Option<usize>
        ensures { MatchOption result (SignsKept (job_of self.now) bytes.now (sign_count (job_of self.now))) (FirstSign (job_of self.now) bytes.now) }
    {
        self.signs
            .iter()
            .enumerate()
            .position(|(s, sign)| !sign.kept_by(uses(bytes, s)))
    }

    // Whether the first bytes, one for each part, are a lawful numbering whose total lies within lo and hi.
    pub fn judge(&self, lo: u16, hi: u16, numbering: &[u8]) -> Result<(), JudgeRefusal>
        ensures { Judged (job_of self.now) lo hi numbering.now result }
    {
        let bytes = numbering
            .get(..self.parts.len())
            .ok_or(JudgeRefusal::Short)?;
        self.verdict(lo, hi, bytes)
    }

    fn verdict(&self, lo: u16, hi: u16, bytes: &[u8]) -> Result<(), JudgeRefusal>
        requires { length bytes.now ≡ part_count (job_of self.now) }
        ensures { Verdict (job_of self.now) lo hi bytes.now result }
    {
        if let Some(p) = self.first_broken_part(bytes) {
            return Err(JudgeRefusal::Part(p));
        }
        if let Some(s) = self.first_broken_sign(bytes) {
            return Err(JudgeRefusal::Sign(s));
        }
        let total = signed(bytes);
        if !(usize::from(lo)..=usize::from(hi)).contains(&total) {
            return Err(JudgeRefusal::Total(total));
        }
        Ok(())
    }
}
