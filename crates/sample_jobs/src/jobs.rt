// Two jobs: the gearbox, whose parts are all required, and a pump with optional and left-out parts.
use crate::sample::{Named, Sample};
use series::records::{PartRecord, SignRecord};

// A required part that may take either of the first two signs.
const EITHER: PartRecord = PartRecord {
    mask: 3,
    standing: 2,
};

const AT_MOST_ONE: SignRecord = SignRecord { least: 0, most: 1 };

pub const GEARBOX: Sample = Sample {
    name: "gearbox",
    parts: &[
        Named {
            name: "shaft",
            record: EITHER,
        },
        Named {
            name: "gear",
            record: EITHER,
        },
    ],
    signs: &[
        Named {
            name: "10",
            record: AT_MOST_ONE,
        },
        Named {
            name: "14",
            record: AT_MOST_ONE,
        },
    ],
    lo: 0,
    hi: 64,
};

// Rotor and seal are optional, plug is left out; sign 3 is to be used.
pub const PUMP: Sample = Sample {
    name: "pump",
    parts: &[
        Named {
            name: "casing",
            record: EITHER,
        },
        Named {
            name: "rotor",
            record: PartRecord {
                mask: 6,
                standing: 1,
            },
        },
        Named {
            name: "seal",
            record: PartRecord {
                mask: 7,
                standing: 1,
            },
        },
        Named {
            name: "plug",
            record: PartRecord {
                mask: 7,
                standing: 0,
            },
        },
    ],
    signs: &[
        Named {
            name: "1",
            record: AT_MOST_ONE,
        },
        Named {
            name: "2",
            record: AT_MOST_ONE,
        },
        Named {
            name: "3",
            record: SignRecord { least: 1, most: 1 },
        },
    ],
    lo: 2,
    hi: 3,
};
