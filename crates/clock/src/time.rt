// Time in seconds and a 64-bit fraction of a second. Document 01, 'Clock'.
ghost use Rattle.std.specs.Prelude.{◌≡◌, leb, ltb, eqb};
ghost use Rattle.clock.specs.Time.{raw, time_of, zero, duration_of, micros_raw, in_range, sum};
ghost use Rattle.clock.specs.Wide.{wide_of};

use crate::wide::Wide;

// A moment: seconds since power-on and 2^64ths of a second.
#[derive(Clone, Copy, Debug, PartialEq, Eq, PartialOrd, Ord)]
pub struct Time {
    pub seconds: u64,
    pub fraction: u64,
}

// A span of time, in the same units. A type of its own, so that no moment is added to a moment.
#[derive(Clone, Copy, Debug, PartialEq, Eq)]
pub struct Duration {
    pub seconds: u64,
    pub fraction: u64,
}

const MICROS: u64 = 1_000_000;

// The whole fraction units of a microsecond, of which a second has 2^64.
const WHOLE: u64 = 18_446_744_073_709;

// And the millionths of a unit above them.
const PARTS: u64 = 551_616;

// us microseconds as seconds and fraction, rounded down.
fn micros_raw(us: u64) -> Wide
    ensures { result ≡ wide_of (micros_raw us) }
{
    let rest = us % MICROS;
    Wide {
        high: us / MICROS,
        low: rest * WHOLE + rest * PARTS / MICROS,
    }
}

impl Time {
    pub const ZERO: Self = Self {
        seconds: 0,
        fraction: 0,
    };

    pub fn from_micros(us: u64) -> Self
        ensures { result ≡ time_of (micros_raw us) }
    {
        Self::from(micros_raw(us))
    }

    // Number 1: a time of 2^32 s or later is out of range.
    pub fn in_range(self) -> bool
        ensures { result ≡ in_range self }
    {
        self.seconds < 0x1_0000_0000
    }

    // None past the largest time.
    pub fn checked_add(self, duration: Duration) -> Option<Time>
        ensures { result ≡ sum self duration }
    {
        let (fraction, carry) = self.fraction.overflowing_add(duration.fraction);
        let seconds = self
            .seconds
            .checked_add(duration.seconds)?
            .checked_add(u64::from(carry))?;
        Some(Time { seconds, fraction })
    }
}

impl From<Wide> for Time {
    ghost from_gives = { λ w t. t ≡ record { seconds = w.high; fraction = w.low } };

    fn from(w: Wide) -> Time {
        Time {
            seconds: w.high,
            fraction: w.low,
        }
    }
}

impl From<Wide> for Duration {
    ghost from_gives = { λ w d. d ≡ record { seconds = w.high; fraction = w.low } };

    fn from(w: Wide) -> Duration {
        Duration {
            seconds: w.high,
            fraction: w.low,
        }
    }
}

impl From<Time> for Wide {
    ghost from_gives = { λ t w. w ≡ record { high = t.seconds; low = t.fraction } };

    fn from(t: Time) -> Wide {
        Wide {
            high: t.seconds,
            low: t.fraction,
        }
    }
}

// The orders and the equality that are derived, tied to their definitions.
fn is_before(a: Time, b: Time) -> bool
    ensures { result ≡ ltb (raw a) (raw b) }
{
    a < b
}

fn is_not_after(a: Time, b: Time) -> bool
    ensures { result ≡ leb (raw a) (raw b) }
{
    a <= b
}

fn is_same(a: Time, b: Time) -> bool
    ensures { result ≡ eqb (raw a) (raw b) }
{
    a == b
}

// Ties the constant to its definition.
fn zero_time() -> Time
    ensures { result ≡ zero }
{
    Time::ZERO
}

impl Duration {
    pub fn from_micros(us: u64) -> Self
        ensures { result ≡ duration_of (micros_raw us) }
    {
        Self::from(micros_raw(us))
    }
}
