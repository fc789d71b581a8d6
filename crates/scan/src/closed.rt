// n quanta at once by division and remainder: within a row, past row ends, past frame ends.
ghost use Rattle.std.specs.Prelude.{◌≡◌, ◌^◌, ◌<◌, ◌≤◌, false};
ghost use Rattle.scan.specs.Closed.{flipped, flips_in, count_in, count_taken, inversion_taken, in_row, rows_ended, frames_ended, closed};

use crate::settings::{Settings, frame_of, pwm_of, rows_in};
use crate::state::{Inversion, Scan};
use checks::Checked;

// A number of quanta. The clock counts no more edges at once, and sums with the counters fit.
#[derive(Clone, Copy)]
pub(crate) struct Quanta {
    pub(crate) count: u64,
    ghost few: { count ≤ 2 ^ 50 },
}

// The rows and the frames that ended in so many quanta.
#[derive(Clone, Copy)]
pub(crate) struct Ends {
    pub(crate) rows: u64,
    pub(crate) frames: u64,
    ghost few_rows: { rows < 2 ^ 51 },
    ghost few_frames: { frames < 2 ^ 52 },
}

// b after n flips.
fn flip(b: bool, n: u64) -> bool
    ensures { result ≡ flipped b n }
{
    if n % 2 == 0 { b } else { !b }
}

impl Inversion {
    // How often ended rows and frames flip.
    fn flips_in(self, ends: Ends) -> u64
        ensures { result ≡ flips_in self.lines self.count ends.rows ends.frames }
    {
        if self.lines == 0 {
            return ends.frames;
        }
        (u64::from(self.count) + ends.rows) / u64::from(self.lines)
    }

    // The count of rows after ended rows.
    fn count_in(self, ends: Ends) -> u8
        ensures { result ≡ count_in self.lines self.count ends.rows }
    {
        if self.lines == 0 {
            return self.count;
        }
        ((u64::from(self.count) + ends.rows) % u64::from(self.lines)) as u8
    }

    // The same where the last row's end takes these lines.
    fn count_taken(self, lines: u8, ends: Ends) -> u8
        ensures { result ≡ count_taken self.lines lines self.count ends.rows }
    {
        if self.lines == lines {
            return self.count_in(ends);
        }
        0
    }

    // The inversion after ended rows, one at least, and ended frames.
    pub(crate) fn taken(self, lines: u8, ends: Ends) -> Inversion
        ensures { result ≡ inversion_taken self lines ends.rows ends.frames }
    {
        Inversion {
            lines,
            count: self.count_taken(lines, ends),
            inverted: flip(self.inverted, self.flips_in(ends)),
        }
    }
}

// Only the step moves.
fn in_row(scan: Scan, step: u8) -> Scan
    ensures { result ≡ in_row scan step }
{
    let mut next = scan;
    next.step = step;
    next.latch.latched = false;
    next
}

// Past ended rows, one at least, and ended frames: all but what a frame end takes.
fn rows_ended(scan: Scan, settings: Settings, step: u8, row: u8, ends: Ends) -> Scan
    ensures { result ≡ rows_ended scan settings step row ends.rows ends.frames }
{
    let mut next = scan;
    next.pwm = pwm_of(settings.gray_mode);
    next.row = row;
    next.step = step;
    next.inversion = scan.inversion.taken(settings.inversion_lines, ends);
    next.latch.latched = false;
    next
}

// Past ended frames: what a frame end takes, and the phase.
fn frames_ended(scan: Scan, settings: Settings, ends: Ends) -> Scan
    ensures { result ≡ frames_ended scan settings ends.frames }
{
    let mut next = scan;
    next.frame = frame_of(settings);
    next.frc = ((u64::from(scan.frc) + ends.frames) % u64::from(next.frame.frc_count)) as u8;
    next
}

// The counters so many quanta later; clock and rate stay.
pub(crate) fn advanced(scan: Checked<Scan>, settings: Settings, quanta: Quanta) -> Scan
    ensures { result ≡ closed scan.value settings scan.value.ticking false quanta.count }
{
    let scan = scan.value;
    let total = u64::from(scan.step) + quanta.count;
    let pwm = u64::from(scan.pwm);
    let ended = total / pwm;
    let step = (total % pwm) as u8;
    if ended == 0 {
        return in_row(scan, step);
    }
    let rows = u64::from(rows_in(scan.frame));
    let passed = u64::from(scan.row) + ended;
    let frames = passed / rows;
    let row = (passed % rows) as u8;
    let ends = Ends {
        rows: ended,
        frames,
    };
    let next = rows_ended(scan, settings, step, row, ends);
    if frames == 0 {
        return next;
    }
    frames_ended(next, settings, ends)
}
