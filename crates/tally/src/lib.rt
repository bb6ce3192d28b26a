// Counting cases, and how a count is printed. Each call is safe and ends.
#![tactic(auto)]

ghost use Rattle.std.specs.Prelude.{◌≡◌, Some};

use std::fmt;

// Of so many cases that differ the number is printed, and of so many that are malformed; the rest are only counted.
const MAX_SHOWN: u64 = 5;

// What a case shows: our answer is the recorded one, or another; or the case is none that its list may hold.
#[derive(Clone, Copy, Debug, PartialEq, Eq)]
pub enum Outcome {
    Same,
    Differs,
    Malformed,
}

impl fmt::Display for Outcome {
    ghost use Rattle.tally.specs.Text.{text_of};

    ghost output = { λ outcome. Some (text_of outcome) };

    fn fmt<W: fmt::Write>(&self, f: &mut fmt::Formatter<W>) -> fmt::Result {
        match self {
            Outcome::Same => write!(f, "same"),
            Outcome::Differs => write!(f, "differs"),
            Outcome::Malformed => write!(f, "malformed"),
        }
    }
}

#[derive(Clone, Copy, Debug, Default, PartialEq, Eq)]
pub struct Tally {
    pub cases: u64,
    pub same: u64,
    pub differ: u64,
    pub malformed: u64,
}

impl Tally {
    ghost use Rattle.tally.specs.Count.{counted};

    // One more case, with its outcome. A count that is the largest number stays so.
    pub fn count(&mut self, outcome: Outcome)
        ensures { self.new ≡ counted self.old outcome }
    {
        self.cases = self.cases.saturating_add(1);
        match outcome {
            Outcome::Same => self.same = self.same.saturating_add(1),
            Outcome::Differs => self.differ = self.differ.saturating_add(1),
            Outcome::Malformed => self.malformed = self.malformed.saturating_add(1),
        }
    }

    // Whether the case that was just counted is to be printed: it is among the first that differ or are malformed.
    pub fn shows(self, outcome: Outcome) -> bool {
        match outcome {
            Outcome::Same => false,
            Outcome::Differs => self.differ <= MAX_SHOWN,
            Outcome::Malformed => self.malformed <= MAX_SHOWN,
        }
    }
}

// What stands behind the name of a list or a group of cases.
impl fmt::Display for Tally {
    ghost use Rattle.tally.specs.Text.{line_of};

    ghost output = { λ tally. Some (line_of tally) };

    fn fmt<W: fmt::Write>(&self, f: &mut fmt::Formatter<W>) -> fmt::Result {
        let Tally {
            cases,
            same,
            differ,
            malformed,
        } = *self;
        write!(f, "{cases} cases, {same} same, {differ} differ")?;
        if 0 < malformed {
            write!(f, ", {malformed} malformed")?;
        }
        Ok(())
    }
}
