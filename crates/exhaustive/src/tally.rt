// How many cases and lines were compared, and how many differed.
use crate::lines::Cut;
use crate::sifted::Sifted;
use itertools::Itertools;
use network::line_record::LineRecord;
use sift::refusal::SiftRefusal;
use std::fmt;
use std::ops::RangeInclusive;

#[derive(Clone, Copy, Default)]
pub struct Tally {
    feasible: u32,
    infeasible: u32,
    fixed: u32,
    free: u32,
    wrong: u32,
}

impl fmt::Display for Tally {
    fn fmt<W: fmt::Write>(&self, f: &mut fmt::Formatter<W>) -> fmt::Result {
        write!(
            f,
            "{} feasible, {} infeasible, {} lines fixed, {} free, {} differ",
            self.feasible, self.infeasible, self.fixed, self.free, self.wrong
        )
    }
}

fn add_one(count: &mut u32) {
    *count = count.saturating_add(1);
}

// From the least to the most that flows carry over the line at a place.
fn carried(flows: &[Vec<usize>], place: usize) -> Option<RangeInclusive<usize>> {
    let (least, most) = flows
        .iter()
        .filter_map(|flow| flow.get(place).copied())
        .minmax()
        .into_option()?;
    Some(least..=most)
}

impl Tally {
    // A line is fixed exactly if all lawful flows agree on it, and then at their amount; else the amount shown is among theirs. The
    // verdict is the byte of the lent memory, which may hold any.
    fn compare_line(&mut self, amounts: RangeInclusive<usize>, shown: usize, verdict: u8) {
        let fixed = amounts.start() == amounts.end();
        if fixed {
            add_one(&mut self.fixed);
        } else {
            add_one(&mut self.free);
        }
        if verdict != u8::from(fixed) || !amounts.contains(&shown) {
            add_one(&mut self.wrong);
        }
    }

    fn compare_lines(&mut self, lines: &[LineRecord], flows: &[Vec<usize>], sifted: &Sifted) {
        let shown = sifted.flow.iter().zip(&sifted.verdicts);
        for (place, (amount, verdict)) in shown.take(lines.len()).enumerate() {
            match carried(flows, place) {
                Some(amounts) => self.compare_line(amounts, *amount as usize, *verdict),
                None => add_one(&mut self.wrong),
            }
        }
    }

    // The set shown is a bottleneck, and its two sums are those told.
    fn compare_cut(&mut self, cut: Cut, demand: u32, supply: u32) {
        if cut.demand != demand as usize || cut.supply != supply as usize || demand <= supply {
            add_one(&mut self.wrong);
        }
    }

    // Compares all lawful flows over the lines with what the sift told: every line, or without any flow a bottleneck.
    pub fn compare(&mut self, lines: &[LineRecord], flows: &[Vec<usize>], sifted: &Sifted) {
        if flows.is_empty() {
            add_one(&mut self.infeasible);
        } else {
            add_one(&mut self.feasible);
        }
        match (sifted.answer, flows) {
            (Ok(()), [_, ..]) => self.compare_lines(lines, flows, sifted),
            (Err(SiftRefusal::NoFlow(demand, supply)), []) => {
                self.compare_cut(Cut::of(lines, &sifted.bottleneck), demand, supply);
            }
            _ => add_one(&mut self.wrong),
        }
    }
}
