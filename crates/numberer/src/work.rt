// A job at work: its records for the judge, and its whole network under entries.
use crate::print::{Verb, print_numbering};
use anyhow::{Context, anyhow};
use index::step::Step;
use layers::closing::Closing;
use layers::entries::Entries;
use layers::entry::{Bound, Entry};
use network::Network;
use network::legend::Legend;
use numbering::flow::numbering_flow;
use numbering::number::number;
use sample_jobs::sample::{Sample, name_at};
use series::one_series::OneSeries;
use sift::memory::Memory;

#[derive(Drop)]
pub struct Work<'a> {
    sample: &'a Sample,
    series: OneSeries,
    job: Entries<Closing<OneSeries>>,
}

impl<'a> Work<'a> {
    pub fn open(sample: &'a Sample) -> anyhow::Result<Work<'a>> {
        let series = sample.load().map_err(|refusal| anyhow!(
            "the job is refused with {}",
            refusal.number()
        ))?;
        Ok(Work {
            sample,
            series,
            job: Entries::new(sample.closed()?),
        })
    }

    // Enters that a part has a sign, or has it not.
    pub fn enter(
        &mut self,
        rt: &impl Print,
        part: usize,
        verb: Verb,
        sign: usize,
    ) -> anyhow::Result<()> {
        let line = self.job.pair_line(part, sign).context("no such pair")?;
        let (bound, amount) = match verb {
            Verb::Is => (Bound::AtLeast, 1),
            Verb::IsNot => (Bound::AtMost, 0),
        };
        let entry = Entry {
            line,
            bound,
            amount,
        };
        self.job.lay(entry).map_err(|refusal| anyhow!(
            "the entry is refused with {}",
            refusal.number()
        ))?;
        println!(rt;
            "{}: enter {} {verb} {}",
            self.sample.name,
            name_at(self.sample.parts, part),
            name_at(self.sample.signs, sign)
        )?;
        Ok(())
    }

    // Numbers the job under its entries, and prints the numbering and its flow.
    pub fn number(&self, rt: &impl Print) -> anyhow::Result<()> {
        let mut bytes = [0; 8];
        let mut memory = Memory {
            flow: &mut [0; 64],
            verdicts: &mut [0; 64],
            bottleneck: &mut [0; 16],
            marks: &mut [0; 16],
            nodes: &mut [0; 16],
            steps: &mut [Step::default(); 16],
        };
        match number(&self.job, &mut bytes, &mut memory) {
            Ok(()) => {
                print_numbering(rt, self.sample, &bytes)?;
                self.confirm(rt, &bytes)?;
            }
            Err(refusal) => println!(rt;
                "{}: no numbering, refused with {}",
                self.sample.name,
                refusal.number()
            )?,
        }
        Ok(())
    }

    // Turns the numbering into its flow, which the judge has to pass first, and prints what each line carries.
    fn confirm(&self, rt: &impl Print, bytes: &[u8]) -> anyhow::Result<()> {
        let mut flow = [0; 64];
        let sample = self.sample;
        match numbering_flow(&self.series, sample.lo, sample.hi, bytes, &mut flow) {
            Ok(()) => {
                print!(rt; "{}: the judge passes it; its flow", sample.name)?;
                for amount in flow.iter().take(self.job.lines()) {
                    print!(rt; " {amount}")?;
                }
                println!(rt; "")?;
            }
            Err(refusal) => println!(rt; "{}: refused with {}", sample.name, refusal.number())?,
        }
        Ok(())
    }
}
