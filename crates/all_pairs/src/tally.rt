// What came of a number of runs.
ghost use Rattle.std.specs.Prelude.{◌≡◌, ◌+◌, ◌≤◌, ◌<◌};
ghost use Rattle.all_pairs.specs.Tallies.{Sane, runs_most};

use std::fmt;

// How many runs there were; how many answered, left the stripe and left the workspace as they should.
#[derive(Clone, Copy)]
pub(crate) struct Tally {
    pub runs: u64,
    pub answered: u64,
    pub left: u64,
    pub cleared: u64,
}

impl Tally {
    // No run yet.
    pub(crate) fn new() -> Tally
        ensures { (Sane result) × (result.runs ≡ 0) }
    {
        Tally {
            runs: 0,
            answered: 0,
            left: 0,
            cleared: 0,
        }
    }

    // One run more.
    pub(crate) fn with(self, answered: bool, left: bool, cleared: bool) -> Tally
        requires { (Sane self) × (self.runs < runs_most) }
        ensures { (Sane result) × (result.runs ≡ self.runs + 1) }
    {
        Tally {
            runs: self.runs + 1,
            answered: self.answered + u64::from(answered),
            left: self.left + u64::from(left),
            cleared: self.cleared + u64::from(cleared),
        }
    }
}

// The four counts.
impl fmt::Display for Tally {
    fn fmt<W: fmt::Write>(&self, f: &mut fmt::Formatter<W>) -> fmt::Result {
        let Tally {
            runs,
            answered,
            left,
            cleared,
        } = *self;
        write!(f, "{runs}/{answered}/{left}/{cleared}")
    }
}
