// The one-series network: it owns the parts and signs of a job.
ghost use Rattle.std.specs.Prelude.{◌≤◌, length};
ghost use Rattle.series.specs.Sound.{SoundSigns};

use crate::records::{Part, SignRecord};
use arrayvec::ArrayVec;

#[derive(Drop)]
pub struct OneSeries {
    pub(crate) parts: ArrayVec<Part, 64>,
    pub(crate) signs: ArrayVec<SignRecord, 64>,
    ghost parts_fit: { length parts.items ≤ 64 },
    ghost signs_fit: { length signs.items ≤ 64 },
    ghost signs_sound: { SoundSigns signs.items (length signs.items) },
}
