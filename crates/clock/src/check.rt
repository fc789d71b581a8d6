// The checks of a clock, in the order of document 01's table.
ghost use Rattle.std.specs.Prelude.{◌≡◌};
ghost use Rattle.clock.specs.Check.{number, refused, is_of_rate, valid_clock, time_row, rate_row, check_clock};

use crate::edges::Clock;
use crate::position::position_of;
use crate::rate::Rate;
use crate::time::Time;
use crate::wide::product_is;
use checks::{Check, Checked, Numbered};

// Why a call is turned down.
#[derive(Clone, Copy, Debug, PartialEq, Eq)]
pub enum Refusal {
    Time,
    Rate,
    Clock,
}

impl Numbered for Refusal {
    ghost number = { number };

    fn number(self) -> u64 {
        match self {
            Refusal::Time => 1,
            Refusal::Rate => 4,
            Refusal::Clock => 5,
        }
    }
}

// Number 1.
impl Check for Time {
    type Refusal = Refusal;

    ghost refusal = { time_row };

    fn check(self) -> Result<(), Refusal> {
        if !self.in_range() {
            return Err(Refusal::Time);
        }
        Ok(())
    }
}

// Number 4.
impl Check for Rate {
    type Refusal = Refusal;

    ghost refusal = { rate_row };

    fn check(self) -> Result<(), Refusal> {
        if !self.is_lcd() {
            return Err(Refusal::Rate);
        }
        Ok(())
    }
}

impl Clock {
    // Whether period and denominator are the rate's: a product tells it without a division.
    #[tactic(auto, using(crate::proofs::Checks::lcd_passed))]
    fn is_of_rate(self, rate: Checked<Rate>) -> bool
        ensures { result ≡ is_of_rate self rate.value }
    {
        let rate = rate.value;
        if !((self.denominator == rate.numerator)
            & (self.remainder < rate.numerator)
            & (self.whole.high == 0))
        {
            return false;
        }
        product_is(
            self.whole.low,
            rate.numerator,
            self.remainder,
            rate.denominator,
        )
    }

    // Number 5.
    #[tactic(auto, using(crate::proofs::Checks::lcd_passed), unfolding(crate::specs::Check::valid_clock))]
    fn valid(self, rate: Checked<Rate>) -> bool
        ensures { result ≡ valid_clock self rate.value }
    {
        let is_below = self.fraction < rate.value.numerator;
        if !(self.is_of_rate(rate) & is_below & self.at.in_range()) {
            return false;
        }
        let position = position_of(Checked { value: self.at }, self.fraction, rate);
        // A product, where it has room, since a division is slow.
        if self.ordinal > position.high {
            return false;
        }
        self.ordinal * rate.value.denominator <= position.high
    }

    // Numbers 4 and 5.
    #[tactic(auto, using(std::proofs::lemmas::Result::err_from_is_err_and), unfolding(crate::specs::Check::check_clock))]
    pub fn check(self, rate: Rate) -> Result<(), Refusal>
        ensures { refused result ≡ check_clock self rate }
    {
        let rate = Checked::new(rate)?;
        if !self.valid(rate) {
            return Err(Refusal::Clock);
        }
        Ok(())
    }
}
