// Counts of the verdicts.
use anyhow::{Context, Result};
use std::io;
use verdict::Verdict;

// The numbers of refusals are below this one.
const NUMBERS: usize = 21;

#[derive(Clone, Copy, Default)]
pub(crate) struct Tally {
    as_expected: u32,
    others: u32,
    closed: u32,
    satisfied: u32,
    // by the number of the refusal
    refused: [u32; NUMBERS],
}

impl Tally {
    // A refusal number that is not below `NUMBERS` is an error.
    pub(crate) fn count(&mut self, verdict: Verdict, as_expected: bool) -> Result<()> {
        let place = if as_expected {
            &mut self.as_expected
        } else {
            &mut self.others
        };
        *place = place.saturating_add(1);
        match verdict {
            Verdict::Closed(_) => self.closed = self.closed.saturating_add(1),
            Verdict::Satisfied(_) => self.satisfied = self.satisfied.saturating_add(1),
            Verdict::Refused { number, .. } => {
                let n = self
                    .refused
                    .get_mut(number as usize)
                    .context(format_args!("no refusal has the number {number}"))?;
                *n = n.saturating_add(1);
            }
        }
        Ok(())
    }

    pub(crate) fn all_as_expected(&self) -> bool {
        self.others == 0
    }

    pub(crate) fn print(&self, rt: &impl Print) -> io::Result<()> {
        println!(rt; "== Counts")?;
        println!(rt; "  closed: {}", self.closed)?;
        println!(rt; "  satisfied: {}", self.satisfied)?;
        for (number, n) in self.refused.iter().enumerate() {
            if *n > 0 {
                println!(rt; "  refused {number}: {n}")?;
            }
        }
        println!(rt;
            "  as expected: {}, not as expected: {}",
            self.as_expected, self.others
        )
    }
}
