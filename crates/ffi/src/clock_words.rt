// The clock over words. A clock is eight words: its last edge (seconds and fraction), its period (two words and a
// remainder), denominator, fraction and ordinal.
ghost use Rattle.std.specs.Prelude.{◌≡◌};
ghost use Rattle.clock.specs.Time.{time_of, micros_raw};
ghost use Rattle.clock.specs.Check.{check_clock};
ghost use Rattle.clock.specs.Edges.{new_clock, count_edges, move_clock, pass_edges};
ghost use Rattle.ffi.specs.Words.{status, check_status, stored};
ghost use Rattle.ffi.specs.ClockWords.{time_words, clock_of, clock_words, passed_count, passed_words};

use crate::words::{Words, put, status};
use checks::Numbered;
use clock::{Clock, Rate, Time, Wide};

pub(crate) fn clock_of(words: &[u64; 8]) -> Clock
    ensures { result ≡ clock_of words.now }
{
    Clock {
        at: Time {
            seconds: words[0],
            fraction: words[1],
        },
        whole: Wide {
            high: words[2],
            low: words[3],
        },
        remainder: words[4],
        denominator: words[5],
        fraction: words[6],
        ordinal: words[7],
    }
}

impl Words for Time {
    type Words = [u64; 2];

    ghost words = { time_words };

    fn words(self) -> [u64; 2] {
        [self.seconds, self.fraction]
    }
}

impl Words for Clock {
    type Words = [u64; 8];

    ghost words = { clock_words };

    fn words(self) -> [u64; 8] {
        [
            self.at.seconds,
            self.at.fraction,
            self.whole.high,
            self.whole.low,
            self.remainder,
            self.denominator,
            self.fraction,
            self.ordinal,
        ]
    }
}

// Microseconds as a time.
pub fn nt7508_time_from_micros(us: u64, out: &mut [u64; 2])
    ensures { out.new ≡ time_words (time_of (micros_raw us)) }
{
    *out = Time::from_micros(us).words();
}

// A clock of a rate that starts at a time.
pub fn nt7508_clock_new(at: Time, rate: Rate, out: &mut [u64; 8]) -> u64
    ensures answers { result ≡ status (new_clock at rate) }
    ensures leaves { out.new ≡ stored clock_words (new_clock at rate) out.old }
{
    put(Clock::new(at, rate), out)
}

// Whether a clock passes the checks of its rate.
pub fn nt7508_clock_check(clock: &[u64; 8], rate: Rate) -> u64
    ensures { result ≡ check_status (check_clock (clock_of clock.now) rate) }
{
    status(clock_of(clock).check(rate))
}

// How many edges stand after the clock's last one and not later than a moment.
pub fn nt7508_clock_edges_to(clock: &[u64; 8], rate: Rate, moment: Time, out: &mut u64) -> u64
    ensures answers { result ≡ status (count_edges (clock_of clock.now) rate moment) }
    ensures leaves { out.new ≡ stored (λ n. n) (count_edges (clock_of clock.now) rate moment) out.old }
{
    put(clock_of(clock).edges_to(rate, moment), out)
}

// The clock moved forward by edges, in place.
pub fn nt7508_clock_moved(clock: &mut [u64; 8], rate: Rate, edges: u64) -> u64
    ensures answers { result ≡ status (move_clock (clock_of clock.old) rate edges) }
    ensures leaves { clock.new ≡ stored clock_words (move_clock (clock_of clock.old) rate edges) clock.old }
{
    put(clock_of(clock).moved(rate, edges), clock)
}

// The clock moved to its last edge not later than a moment, by limit edges at the most, in place. Not by `put`, since the C
// interface lends a number beside the clock.
pub fn nt7508_clock_passed_to(
    clock: &mut [u64; 8],
    rate: Rate,
    moment: Time,
    limit: u64,
    count: &mut u64,
) -> u64
    ensures answers { result ≡ status (pass_edges (clock_of clock.old) rate moment limit) }
    ensures counts { count.new ≡ stored passed_count (pass_edges (clock_of clock.old) rate moment limit) count.old }
    ensures leaves { clock.new ≡ stored passed_words (pass_edges (clock_of clock.old) rate moment limit) clock.old }
{
    match clock_of(clock).passed_to(rate, moment, limit) {
        Ok(passed) => {
            *count = passed.count;
            *clock = passed.clock.words();
            0
        }
        Err(refusal) => refusal.number(),
    }
}
