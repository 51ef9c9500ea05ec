// Prints entries and numberings by names and signs.
use sample_jobs::sample::{Sample, name_at};
use series::judge::UNSIGNED;
use std::{fmt, io};

// What is entered of a part and a sign.
#[derive(Clone, Copy)]
pub enum Verb {
    Is,
    IsNot,
}

impl fmt::Display for Verb {
    fn fmt<W: fmt::Write>(&self, f: &mut fmt::Formatter<W>) -> fmt::Result {
        f.write_str(match self {
            Verb::Is => "is",
            Verb::IsNot => "is not",
        })
    }
}

// One line: each part with its sign.
pub fn print_numbering(rt: &impl Print, sample: &Sample, bytes: &[u8]) -> io::Result<()> {
    print!(rt; "{}: numbered", sample.name)?;
    for (part, byte) in sample.parts.iter().zip(bytes) {
        if *byte == UNSIGNED {
            print!(rt; "; {} has no sign", part.name)?;
        } else {
            let sign = name_at(sample.signs, usize::from(*byte));
            print!(rt; "; {} is {sign}", part.name)?;
        }
    }
    println!(rt; "")
}
