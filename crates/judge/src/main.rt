// Judges numberings of the gearbox job by hand, and prints each action.
#![tactic(auto)]

use sample_jobs::jobs::GEARBOX;
use sample_jobs::sample::name_at;
use series::judge::{JudgeRefusal, UNSIGNED};
use series::one_series::OneSeries;
use std::{fmt, io};

fn sign_of(byte: u8) -> &'static str {
    if byte == UNSIGNED {
        return "no sign";
    }
    GEARBOX
        .signs
        .get(usize::from(byte))
        .map_or("a sign not in the list", |sign| sign.name)
}

// What the judge told.
#[derive(Drop)]
struct Verdict(Result<(), JudgeRefusal>);

impl fmt::Display for Verdict {
    fn fmt<W: fmt::Write>(&self, f: &mut fmt::Formatter<W>) -> fmt::Result {
        let Err(refusal) = self.0 else {
            return write!(f, "lawful");
        };
        write!(f, "refused, {}: ", refusal.number())?;
        match refusal {
            JudgeRefusal::Short => write!(f, "fewer bytes than parts"),
            JudgeRefusal::Part(p) => write!(
                f,
                "the rule of {} is broken",
                name_at(GEARBOX.parts, p)
            ),
            JudgeRefusal::Sign(s) => write!(
                f,
                "sign {} is used too often or too seldom",
                name_at(GEARBOX.signs, s)
            ),
            JudgeRefusal::Total(total) => write!(f, "{total} parts are signed in all"),
        }
    }
}

fn judge(rt: &impl Print, job: &OneSeries, hi: u16, numbering: &[u8]) -> io::Result<()> {
    print!(rt; "judge")?;
    for (part, byte) in GEARBOX.parts.iter().zip(numbering) {
        print!(rt; " {} with {},", part.name, sign_of(*byte))?;
    }
    println!(rt;
        " 0 to {hi} parts signed: {}",
        Verdict(job.judge(0, hi, numbering))
    )
}

fn main(rt: HostRuntime) -> io::Result<()> {
    print!(rt; "load the gearbox job, parts shaft and gear, signs 10 and 14: ")?;
    let job = match GEARBOX.load() {
        Ok(job) => job,
        Err(refusal) => return println!(rt; "refused, {}", refusal.number()),
    };
    println!(rt; "loaded")?;
    judge(&rt, &job, 64, &[0, 1])?;
    judge(&rt, &job, 64, &[0, 0])?;
    judge(&rt, &job, 64, &[0, UNSIGNED])?;
    judge(&rt, &job, 64, &[2, 1])?;
    judge(&rt, &job, 1, &[1, 0])?;
    judge(&rt, &job, 64, &[0])
}
