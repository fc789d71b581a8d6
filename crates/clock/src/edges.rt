// A running rational clock: how many of its edges stand up to a moment, and the clock moved forward
// by a number of edges. Document 01, 'Clock'.
ghost use Rattle.std.specs.Prelude.{◌≡◌};
ghost use Rattle.clock.specs.Check.{refused};
ghost use Rattle.clock.specs.Edges.{started, answered, answered_pass, new_clock, count_edges, move_clock, advance_clock, pass_edges};

use crate::check::Refusal;
use crate::rate::Rate;
use crate::rated::RatedClock;
use crate::time::Time;
use crate::wide::{Wide, div};
use checks::{Check, Checked};

// `at` is the time of the last edge passed and `fraction` what it is later than that, in
// 1 / denominator fraction units; `whole` and `remainder` are the period in the same units.
#[derive(Clone, Copy, Debug, PartialEq, Eq)]
pub struct Clock {
    pub at: Time,
    pub whole: Wide,
    pub remainder: u64,
    pub denominator: u64,
    pub fraction: u64,
    pub ordinal: u64,
}

// How many edges were passed, and the clock moved by them.
#[derive(Clone, Copy, Debug, PartialEq, Eq)]
pub struct Passed {
    pub count: u64,
    pub clock: Clock,
}

#[tactic(auto, using(crate::proofs::Checks::lcd_passed), unfolding(crate::specs::Edges::started))]
fn start(at: Time, rate: Checked<Rate>) -> Clock
    ensures { result ≡ started at rate.value }
{
    let rate = rate.value;
    let one_second = Wide {
        high: rate.denominator,
        low: 0,
    };
    let q = div(one_second, rate.numerator);
    Clock {
        at,
        whole: q.quotient,
        remainder: q.remainder,
        denominator: rate.numerator,
        fraction: 0,
        ordinal: 0,
    }
}

impl Clock {
    // A clock that starts at a moment.
    #[tactic(auto, using(std::proofs::lemmas::Result::err_from_is_err_and), unfolding(crate::specs::Edges::new_clock))]
    pub fn new(at: Time, rate: Rate) -> Result<Clock, Refusal>
        ensures { answered result ≡ new_clock at rate }
    {
        at.check()?;
        let rate = Checked::new(rate)?;
        Ok(start(at, rate))
    }

    #[tactic(auto, using(std::proofs::lemmas::Result::err_from_is_err_and), unfolding(crate::specs::Edges::count_edges))]
    pub fn edges_to(self, rate: Rate, now: Time) -> Result<u64, Refusal>
        ensures { answered result ≡ count_edges self rate now }
    {
        let now = Checked::new(now)?;
        self.check(rate)?;
        let clock = RatedClock { clock: self, rate };
        Ok(clock.count_to(now))
    }

    // The clock moved forward by edges. One whose last edge would be out of range is refused as
    // that time is.
    #[tactic(auto, using(std::proofs::lemmas::Result::err_from_is_err_and), unfolding(crate::specs::Edges::move_clock))]
    pub fn moved(self, rate: Rate, edges: u64) -> Result<Clock, Refusal>
        ensures { answered result ≡ move_clock self rate edges }
    {
        self.check(rate)?;
        // More edges than any range of times holds at any LCD rate.
        if edges > 0x4_0000_0000_0000 {
            return Err(Refusal::Time);
        }
        let clock = RatedClock { clock: self, rate }.move_by(edges);
        clock.at.check()?;
        Ok(clock)
    }

    // Moves the clock forward by edges, in place. A refusal leaves it as it was.
    #[tactic(auto, using(std::proofs::lemmas::Result::err_from_is_err_and), unfolding(crate::specs::Edges::advance_clock))]
    pub fn advance(&mut self, rate: Rate, edges: u64) -> Result<(), Refusal>
        ensures { (refused result, self.new) ≡ advance_clock self.old rate edges }
    {
        *self = (*self).moved(rate, edges)?;
        Ok(())
    }

    // The clock moved to the last edge not later than now, by limit edges at the most.
    #[tactic(auto, using(std::proofs::lemmas::Result::err_from_is_err_and), unfolding(crate::specs::Edges::pass_edges))]
    pub fn passed_to(self, rate: Rate, now: Time, limit: u64) -> Result<Passed, Refusal>
        ensures { answered_pass result ≡ pass_edges self rate now limit }
    {
        let now = Checked::new(now)?;
        self.check(rate)?;
        let clock = RatedClock { clock: self, rate };
        let count = clock.count_to(now).min(limit);
        Ok(Passed {
            count,
            clock: clock.move_by(count),
        })
    }
}
