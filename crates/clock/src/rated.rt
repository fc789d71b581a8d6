// A clock with the rate at which it runs, where both passed their checks: how many of its edges stand up to
// a moment, and where it stands so many edges further. Document 01, 'Clock'.
ghost use Rattle.std.specs.Prelude.{◌≡◌, None, ◌+◌, ◌/◌, ◌^◌, ◌<◌, ◌≤◌};
ghost use Rattle.std.proofs.Props.{props};
ghost use Rattle.clock.specs.Check.{check_clock};
ghost use Rattle.clock.specs.Edges.{edges_to, moved_by};

use crate::edges::Clock;
use crate::position::position_of;
use crate::rate::Rate;
use crate::time::Time;
use crate::wide::{Wide, difference, div, mul_add, sum};
use checks::Checked;

#[derive(Clone, Copy)]
pub(crate) struct RatedClock {
    pub(crate) clock: Clock,
    pub(crate) rate: Rate,
    pub ghost passes: { check_clock clock rate ≡ None } by { Prim.hlevel props },
}

// Most rates are over 1, and a division is slow.
fn over(n: u64, d: u64) -> u64
    requires { 0 < d }
    ensures { result ≡ n / d }
{
    if d == 1 { n } else { n / d }
}

impl Clock {
    // The clock with another last edge, so many edges further.
    fn standing(self, last: Wide, fraction: u64, edges: u64) -> Clock
        requires { self.ordinal + edges < 2 ^ 64 }
        ensures { result ≡ record { at = record { seconds = last.high; fraction = last.low }; whole = self.whole; remainder = self.remainder; denominator = self.denominator; fraction = fraction; ordinal = self.ordinal + edges } }
    {
        Clock {
            at: Time::from(last),
            fraction,
            ordinal: self.ordinal + edges,
            ..self
        }
    }
}

impl RatedClock {
    // How many edges stand after the last one and not later than now. Inline, as `move_by` is, so that clock and
    // rate are not put into memory side by side for it: that costs up to 8 ns.
    #[inline(always)]
    #[tactic(auto, using(crate::proofs::Checks::rated_bounds, crate::proofs::Checks::rated_fraction, crate::proofs::Checks::time_passed))]
    pub(crate) fn count_to(self, now: Checked<Time>) -> u64
        ensures { result ≡ edges_to self.clock self.rate now.value }
    {
        let now = now.value;
        let (at, p) = (self.clock.at, self.rate.numerator);
        if now < at {
            return 0;
        }
        // From the last edge to the last position that still belongs to now, by one product.
        let span = difference(Wide::from(now), Wide::from(at));
        let passed = mul_add(span, p, p - 1 - self.clock.fraction);
        over(passed.high, self.rate.denominator)
    }

    // By few edges: whole units of the periods are a product, so that one short division is left.
    #[tactic(auto, using(crate::proofs::Checks::rated_bounds, crate::proofs::Positions::few))]
    fn move_few(self, edges: u64) -> Clock
        requires { edges < 2 ^ 32 }
        ensures { result ≡ moved_by self.clock self.rate edges }
    {
        let clock = self.clock;
        let parts = clock.fraction + edges * clock.remainder;
        // Side by side, so that one division gives both.
        let rest = parts % self.rate.numerator;
        let span = mul_add(clock.whole, edges, parts / self.rate.numerator);
        clock.standing(sum(Wide::from(clock.at), span), rest, edges)
    }

    // By so few edges that the clock's position has room in two words.
    #[tactic(auto, using(crate::proofs::Checks::rated_bounds, crate::proofs::Checks::rated_fraction, crate::proofs::Checks::rated_row, crate::proofs::Checks::rated_time))]
    fn move_many(self, edges: u64) -> Clock
        requires { edges ≤ 2 ^ 50 }
        ensures { result ≡ moved_by self.clock self.rate edges }
    {
        let at = Checked {
            value: self.clock.at,
        };
        let rate = Checked { value: self.rate };
        let begin = position_of(at, self.clock.fraction, rate);
        let end = Wide {
            high: begin.high + edges * self.rate.denominator,
            low: begin.low,
        };
        let q = div(end, self.rate.numerator);
        self.clock.standing(q.quotient, q.remainder, edges)
    }

    // By few edges or by many.
    #[inline(always)]
    #[tactic(auto, using(crate::proofs::Checks::rated_fraction, crate::proofs::Laws::moved_none))]
    pub(crate) fn move_by(self, edges: u64) -> Clock
        requires { edges ≤ 2 ^ 50 }
        ensures { result ≡ moved_by self.clock self.rate edges }
    {
        // Most clocks that are asked have no edge to pass, and a division is slow.
        if edges == 0 {
            return self.clock;
        }
        if edges < 0x1_0000_0000 {
            return self.move_few(edges);
        }
        self.move_many(edges)
    }
}
