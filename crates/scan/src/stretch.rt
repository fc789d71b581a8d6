// The scan counted by stretches of one rate: the quanta for which the clock is asked once. Within a
// stretch the piece rule goes by the counters alone.
ghost use Rattle.std.specs.Prelude.{◌≡◌, ◌-◌, ◌*◌, ◌<◌, true, if◌then◌else◌, Some};
ghost use Rattle.clock.specs.Time.{in_range};
ghost use Rattle.clock.specs.Rate.{same_rate};
ghost use Rattle.clock.specs.Edges.{started};
ghost use Rattle.scan.specs.State.{rows};
ghost use Rattle.scan.specs.Check.{valid_scan};
ghost use Rattle.scan.specs.Count.{answered_count};
ghost use Rattle.scan.specs.Stretch.{limit_in, rate_stays, stretch_limit, ticked_on, InPieces, count_clock};

use crate::check::Refusal;
use crate::closed::{Quanta, advanced};
use crate::count::{Counted, frame_same, rate_same, row_same};
use crate::settings::{Settings, frame_of, rate_of, rows_in};
use crate::state::{Latch, Scan, Ticking, start_clock, with_ticking};
use checks::Checked;
use clock::{Clock, Rate, Time};

// Quanta counted, and the uses of the piece rule that took. Not `Counted`, the answer of a public call: that has
// a byte for the number, and it is known only at the end of a count that it fits.
#[derive(Clone, Copy, Debug, PartialEq, Eq)]
struct Run {
    scan: Scan,
    pieces: u64,
}

// Edges that are due: how many, and the clock moved to the last of them.
#[derive(Clone, Copy)]
struct Due {
    quanta: Quanta,
    clock: Clock,
    ghost at_in_range: { in_range clock.at ≡ true },
}

// Quanta up to the end of the row.
fn row_remaining(scan: Scan) -> u64
    ensures { result ≡ scan.pwm - scan.step }
{
    u64::from(scan.pwm.saturating_sub(scan.step))
}

// Quanta up to the end of the frame.
fn frame_remaining(scan: Scan) -> u64
    ensures { result ≡ (rows scan - scan.row) * scan.pwm - scan.step }
{
    let rows = rows_in(scan.frame).saturating_sub(u16::from(scan.row));
    (u64::from(rows) * u64::from(scan.pwm)).saturating_sub(u64::from(scan.step))
}

// How many quanta the piece rule takes at once.
fn limit_in(scan: Scan, settings: Settings) -> u64
    ensures { result ≡ limit_in scan settings }
{
    if !rate_same(scan, settings) {
        return 1;
    }
    if !row_same(scan, settings) {
        return row_remaining(scan);
    }
    if !frame_same(scan, settings) {
        return frame_remaining(scan);
    }
    u64::MAX
}

// Whether the rate is that of the settings with the rows held, and with those that a frame end
// would take.
fn rate_stays(scan: Scan, settings: Settings) -> bool
    ensures { result ≡ rate_stays scan settings }
{
    rate_same(scan, settings) & (scan.ticking.rate == rate_of(settings, frame_of(settings)))
}

// How many quanta the clock may be asked for at once: all where no row or frame end changes the
// rate, else those of one use of the piece rule, of which only the last can change it.
fn stretch_limit(scan: Scan, settings: Settings) -> u64
    ensures { result ≡ stretch_limit scan settings }
{
    if rate_stays(scan, settings) {
        return u64::MAX;
    }
    limit_in(scan, settings)
}

// The counters so many quanta later, by the piece rule; clock and rate stay.
fn by_pieces(scan: Checked<Scan>, settings: Checked<Settings>, quanta: Quanta) -> Run
    ensures { InPieces scan.value settings.value quanta.count scan.value.ticking result }
{
    let mut from = scan.value;
    let mut left = quanta.count;
    let mut uses: u64 = 0;
    while left != 0 {
        let count = left.min(limit_in(from, settings.value));
        from = advanced(Checked { value: from }, settings.value, Quanta { count });
        left -= count;
        uses += 1;
    }
    Run {
        scan: from,
        pieces: uses,
    }
}

// The clock after a stretch: the one moved, or a new one at its last edge where the rate is another.
fn next_clock(due: Due, rate: Rate, new: Checked<Rate>) -> Option<Clock>
    ensures { result ≡ (if same_rate rate new.value then Some due.clock else Some (started due.clock.at new.value)) }
{
    if rate == new.value {
        return Some(due.clock);
    }
    start_clock(
        Checked {
            value: due.clock.at,
        },
        new,
    )
}

// The quanta of due edges counted, of which only the last can change the rate.
fn stretch(scan: Checked<Scan>, settings: Checked<Settings>, due: Due) -> Run
    ensures { InPieces scan.value settings.value due.quanta.count (ticked_on scan.value settings.value due.quanta.count due.clock) result }
{
    let run = by_pieces(scan, settings, due.quanta);
    let new = Checked {
        value: rate_of(settings.value, run.scan.frame),
    };
    let clock = next_clock(due, scan.value.ticking.rate, new);
    Run {
        scan: with_ticking(run.scan, clock, new.value),
        pieces: run.pieces,
    }
}

// The same clock, taken apart and put together, for the reason that stands at `rebuilt`.
fn same_clock(clock: Option<Clock>) -> Option<Clock>
    ensures { result ≡ clock }
{
    let Some(running) = clock else {
        return None;
    };
    Some(running)
}

// The same scan, field by field: a plain copy takes the padding after the clock's tag along, in halves
// that overlap, and the next copy has to wait for both.
fn rebuilt(scan: Scan) -> Scan
    ensures { result ≡ scan }
{
    let segments = scan.latch.segments;
    Scan {
        ticking: Ticking {
            clock: same_clock(scan.ticking.clock),
            rate: scan.ticking.rate,
        },
        latch: Latch {
            segments,
            latched: scan.latch.latched,
        },
        frame: scan.frame,
        pwm: scan.pwm,
        row: scan.row,
        step: scan.step,
        frc: scan.frc,
        inversion: scan.inversion,
    }
}

// The answer of a count that passes.
fn counted_as(scan: Scan, pieces: u64) -> Counted
    requires { pieces < 256 }
    ensures { result ≡ record { scan = scan; pieces = pieces } }
{
    Counted {
        scan,
        pieces: pieces as u8,
    }
}

// The scan counted by stretches of one rate: one question to the clock for each, and the first of
// them is its check. This has one caller, so that the compiler makes one function of both and copies
// no scan between them.
pub(crate) fn in_pieces(
    scan: Scan,
    settings: Checked<Settings>,
    now: Checked<Time>,
) -> Result<Counted, Refusal>
    requires { valid_scan scan ≡ true }
    ensures { answered_count scan result ≡ count_clock scan settings.value now.value }
{
    let mut from = rebuilt(scan);
    let mut before: u64 = 0;
    loop {
        let Some(clock) = from.ticking.clock else {
            return Ok(counted_as(from, before));
        };
        let limit = stretch_limit(from, settings.value);
        let passed = clock.passed_to(from.ticking.rate, now.value, limit)?;
        if passed.count == 0 {
            return Ok(counted_as(from, before));
        }
        let due = Due {
            quanta: Quanta {
                count: passed.count,
            },
            clock: passed.clock,
        };
        let run = stretch(Checked { value: from }, settings, due);
        from = run.scan;
        before += run.pieces;
        if passed.count < limit {
            return Ok(counted_as(from, before));
        }
    }
}
