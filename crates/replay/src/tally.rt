// How many cases of a list are replayed.
ghost use Rattle.std.specs.Prelude.{◌≡◌};
ghost use Rattle.replay.specs.Tally.{more as more_than, started, counted as counted_case};

// How many cases there were, and how many of them differ.
#[derive(Clone, Copy, Debug, PartialEq, Eq)]
pub struct Tally {
    pub cases: u64,
    pub differ: u64,
}

fn more(count: u64) -> u64
    ensures { result ≡ more_than count }
{
    count.wrapping_add(1)
}

impl Tally {
    pub fn new() -> Self
        ensures { result ≡ started }
    {
        Self {
            cases: 0,
            differ: 0,
        }
    }

    // After a case that agrees or differs.
    pub fn counted(self, agrees: bool) -> Self
        ensures { result ≡ counted_case self agrees }
    {
        Self {
            cases: more(self.cases),
            differ: if agrees {
                self.differ
            } else {
                more(self.differ)
            },
        }
    }
}
