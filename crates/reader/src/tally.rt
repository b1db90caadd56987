// How many lines there were of each kind, and how many files were not read.
use refusal::Fault;
use std::fmt;

// One more than the highest number of a fault. None has 0.
const NUMBERS: usize = 42;

#[derive(Drop)]
pub struct Tally {
    pub lines: u64,
    accepted: u64,
    // At each number, how many lines it refused.
    refused: [u64; NUMBERS],
    passed_over: u64,
    // So many files.
    not_read: u64,
}

fn add_one(count: &mut u64) {
    *count = count.saturating_add(1);
}

impl Tally {
    pub fn none() -> Tally {
        Tally {
            lines: 0,
            accepted: 0,
            refused: [0; NUMBERS],
            passed_over: 0,
            not_read: 0,
        }
    }

    pub fn count_line(&mut self) {
        add_one(&mut self.lines);
    }

    pub fn count_accepted(&mut self) {
        add_one(&mut self.accepted);
    }

    pub fn count_refused(&mut self, fault: Fault) {
        add_one(&mut self.refused[fault.number() as usize]);
    }

    pub fn count_passed_over(&mut self) {
        add_one(&mut self.passed_over);
    }

    pub fn count_not_read(&mut self) {
        add_one(&mut self.not_read);
    }
}

impl fmt::Display for Tally {
    fn fmt<W: fmt::Write>(&self, f: &mut fmt::Formatter<W>) -> fmt::Result {
        let refused = self
            .refused
            .iter()
            .fold(0u64, |all, lines| all.saturating_add(*lines));
        write!(
            f,
            "lines {}, accepted {}, refused {refused}",
            self.lines, self.accepted
        )?;
        let mut before = " (";
        for (number, lines) in self.refused.iter().enumerate() {
            if *lines > 0 {
                write!(f, "{before}number {number}: {lines}")?;
                before = ", ";
            }
        }
        if refused > 0 {
            f.write_str(")")?;
        }
        write!(f, ", passed over {}", self.passed_over)?;
        if self.not_read > 0 {
            write!(f, ", files not read {}", self.not_read)?;
        }
        Ok(())
    }
}
