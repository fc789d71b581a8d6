// Counting the scan to a moment. Document 01, 'Scan'. The piece rule and the clock stand in stretch.rt.
ghost use Rattle.std.specs.Prelude.{◌≡◌, ◌+◌, ◌*◌, ◌^◌, ◌<◌, leb, if◌then◌else◌};
ghost use Rattle.clock.specs.Time.{raw};
ghost use Rattle.scan.specs.Count.{row_same, frame_same, rate_same, due, count_to, answered_count, count_scan};

use crate::check::{Refusal, check_but_clock};
use crate::settings::{Settings, frame_of, pwm_of, rate_of};
use crate::state::Scan;
use crate::stretch::in_pieces;
use checks::Checked;
use clock::Time;

// The scan counted to a moment, and how many pieces that took.
#[derive(Clone, Copy, Debug, PartialEq, Eq)]
pub struct Counted {
    pub scan: Scan,
    pub pieces: u8,
}

pub(crate) fn row_same(scan: Scan, settings: Settings) -> bool
    ensures { result ≡ row_same scan settings }
{
    (pwm_of(settings.gray_mode) == scan.pwm) & (settings.inversion_lines == scan.inversion.lines)
}

pub(crate) fn frame_same(scan: Scan, settings: Settings) -> bool
    ensures { result ≡ frame_same scan settings }
{
    frame_of(settings) == scan.frame
}

pub(crate) fn rate_same(scan: Scan, settings: Settings) -> bool
    ensures { result ≡ rate_same scan settings }
{
    scan.ticking.rate == rate_of(settings, scan.frame)
}

// Whole units up to the next edge: one more where the fractions come to a unit.
fn next_span(whole: u64, remainder: u64, fraction: u64, numerator: u64) -> u64
    requires whole_bound { whole < 2 ^ 63 }
    requires remainder_lt_numerator { remainder < numerator }
    requires fraction_lt_numerator { fraction < numerator }
    requires numerator_bound { numerator < 2 ^ 20 }
    ensures { result ≡ whole + (if leb numerator (fraction + remainder) then 1 else 0) }
{
    if numerator <= fraction + remainder {
        whole + 1
    } else {
        whole
    }
}

// A time later by less than a second. Not `Time::checked_add`: that was tried, and tests for an overflow that
// cannot be, so that a drive takes some 2 ns more.
fn later(seconds: u64, fraction: u64, span: u64) -> Time
    requires { seconds < 2 ^ 32 }
    ensures { raw result ≡ seconds * 2 ^ 64 + fraction + span }
{
    let (low, over) = fraction.overflowing_add(span);
    Time {
        seconds: seconds + u64::from(over),
        fraction: low,
    }
}

// Whether the next edge is not later than now: one comparison, where a count divides. Not inline: a scan that
// is read beside its copy is copied in parts, and what then reads the copy waits.
#[inline(never)]
pub(crate) fn is_due(scan: &Checked<Scan>, now: Time) -> bool
    ensures { result ≡ due scan.now.value now }
{
    let Some(clock) = &scan.value.ticking.clock else {
        return false;
    };
    let span = next_span(
        clock.whole.low,
        clock.remainder,
        clock.fraction,
        scan.value.ticking.rate.numerator,
    );
    later(clock.at.seconds, clock.at.fraction, span) <= now
}

impl Scan {
    // The scan counted to now, and the pieces that took. The clock's check is the last in the table's
    // order, and the first question to it makes that.
    pub fn count_to(self, settings: Settings, now: Time) -> Result<Counted, Refusal>
        ensures { answered_count self result ≡ count_scan self settings now }
    {
        check_but_clock(self, settings.valid(), now)?;
        in_pieces(self, Checked { value: settings }, Checked { value: now })
    }
}

// The scan counted to now, where every check has passed.
pub(crate) fn counted_to(
    scan: Checked<Scan>,
    settings: Checked<Settings>,
    now: Checked<Time>,
) -> Scan
    ensures { result ≡ count_to scan.value settings.value now.value }
{
    let counted = scan.value.count_to(settings.value, now.value).unwrap();
    counted.scan
}

// The same with its check. Mostly no edge is due.
pub(crate) fn latest(
    scan: Checked<Scan>,
    settings: Checked<Settings>,
    now: Checked<Time>,
) -> Checked<Scan>
    ensures { result.value ≡ count_to scan.value settings.value now.value }
{
    if !is_due(&scan, now.value) {
        return scan;
    }
    Checked {
        value: counted_to(scan, settings, now),
    }
}
