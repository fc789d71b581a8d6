// The fast path of a byte: its checks pass, the scan goes on as it did, and every setting that the ends of
// rows and frames take is in force already. Then only clock, counters and latch move, and one check of
// the clock does for the count too. Any other byte goes by byte.rt.
ghost use Rattle.std.specs.Prelude.{◌≡◌, ◌+◌, ◌%◌, ◌^◌, ◌<◌, ◌&&◌, true};
ghost use Rattle.clock.specs.Time.{in_range};
ghost use Rattle.scan.specs.Check.{valid_settings, valid_scan};
ghost use Rattle.scan.specs.Fast.{counted_fast, fast_byte, in_force, inversion_on, with_counters, rows_on, moved_on};

use crate::closed::{Ends, Quanta};
use crate::count::{frame_same, rate_same, row_same};
use crate::latch::{latch_retained, stays_shown};
use crate::memory::Memory;
use crate::run::{Running, settled};
use crate::settings::{Settings, rows_in};
use crate::state::{Inversion, Scan, with_ticking};
use checks::Checked;
use clock::{Clock, Time};

// No end of a row or frame takes another setting, and the rate is that of the settings.
fn in_force(scan: Scan, settings: Settings) -> bool
    ensures { result ≡ in_force scan settings }
{
    rate_same(scan, settings) & row_same(scan, settings) & frame_same(scan, settings)
}

// The inversion after these ended rows and frames, its lines in force.
fn inversion_on(inversion: Inversion, ends: Ends) -> Inversion
    ensures { result ≡ inversion_on inversion ends.rows ends.frames }
{
    inversion.taken(inversion.lines, ends)
}

// The scan with this clock and these counters; what it has taken stays.
fn with_counters(scan: Scan, clock: Clock, step: u8, row: u8, frc: u8, inversion: Inversion) -> Scan
    ensures { result ≡ with_counters scan clock step row frc inversion }
{
    let mut next = with_ticking(scan, Some(clock), scan.ticking.rate);
    next.latch.latched = false;
    next.row = row;
    next.step = step;
    next.frc = frc;
    next.inversion = inversion;
    next
}

// The phase after these ended frames.
fn phase_on(scan: Checked<Scan>, ends: Ends) -> u8
    ensures { result ≡ (scan.value.frc + ends.frames) % scan.value.frame.frc_count }
{
    let phases = u64::from(scan.value.frame.frc_count);
    ((u64::from(scan.value.frc) + ends.frames) % phases) as u8
}

// Past e row ends, with every setting in force.
fn rows_on(scan: Checked<Scan>, clock: Clock, step: u8, e: u64) -> Scan
    requires { e < 2 ^ 51 }
    ensures { result ≡ rows_on scan.value clock step e }
{
    let Scan {
        frame,
        row,
        frc,
        inversion,
        ..
    } = scan.value;
    let rows = u64::from(rows_in(frame));
    let passed = u64::from(row) + e;
    if passed < rows {
        let next = inversion_on(inversion, Ends { rows: e, frames: 0 });
        return with_counters(scan.value, clock, step, passed as u8, frc, next);
    }
    let ends = Ends {
        rows: e,
        frames: passed / rows,
    };
    let row = (passed % rows) as u8;
    let next = inversion_on(inversion, ends);
    with_counters(scan.value, clock, step, row, phase_on(scan, ends), next)
}

// So many quanta later, with every setting in force.
fn moved_on(scan: Checked<Scan>, clock: Clock, quanta: Quanta) -> Scan
    ensures { result ≡ moved_on scan.value clock quanta.count }
{
    let Scan {
        pwm,
        row,
        step,
        frc,
        inversion,
        ..
    } = scan.value;
    let total = u64::from(step) + quanta.count;
    let pwm = u64::from(pwm);
    if total < pwm {
        return with_counters(scan.value, clock, total as u8, row, frc, inversion);
    }
    rows_on(scan, clock, (total % pwm) as u8, total / pwm)
}

// The scan counted to now, where its clock passes and an edge that is due finds every setting in force.
// None elsewhere.
fn counted_fast(scan: Scan, settings: Checked<Settings>, now: Checked<Time>) -> Option<Scan>
    requires { valid_scan scan ≡ true }
    ensures { result ≡ counted_fast scan settings.value now.value }
{
    let Some(clock) = scan.ticking.clock else {
        return Some(scan);
    };
    let Ok(passed) = clock.passed_to(scan.ticking.rate, now.value, u64::MAX) else {
        return None;
    };
    if passed.count == 0 {
        return Some(scan);
    }
    if !in_force(scan, settings.value) {
        return None;
    }
    let quanta = Quanta {
        count: passed.count,
    };
    Some(moved_on(Checked { value: scan }, passed.clock, quanta))
}

// The same settings, field by field, for speed alone. Handed on as they are, settings have to stand in memory for
// the call that makes the latch, and the compiler puts them there at the start, for every byte. Field by field
// they are put there only for the few bytes that come to that call.
fn copied(settings: Settings) -> Settings
    ensures { result ≡ settings }
{
    let palette = settings.palette;
    Settings {
        start_line: settings.start_line,
        icon_enabled: settings.icon_enabled,
        entire_on: settings.entire_on,
        reverse: settings.reverse,
        segment_reverse: settings.segment_reverse,
        common_reverse: settings.common_reverse,
        initial_com: settings.initial_com,
        duty: settings.duty,
        inversion_lines: settings.inversion_lines,
        gray_mode: settings.gray_mode,
        palette,
        oscillator_control: settings.oscillator_control,
        oscillator_frequency: settings.oscillator_frequency,
    }
}

// Every check but those of memory and clock passes. Not `check_but_clock(..).is_ok()`: that was tried, and
// branches after each check, so that a byte takes 1 ns more.
fn checks_pass(scan: Scan, settings: Settings, moment: Time) -> bool
    ensures { result ≡ in_range moment && valid_settings settings && valid_scan scan }
{
    moment.in_range() & settings.valid() & scan.valid()
}

impl Scan {
    // The scan after a byte that takes the fast path, which leaves the settings as they are; None of
    // another byte.
    pub fn fast_byte(
        self,
        settings: Settings,
        moment: Time,
        page: Option<u8>,
        running: Running,
        memory: Memory<'_>,
    ) -> Option<Scan>
        ensures { result ≡ fast_byte self settings moment page running memory.entry.ram.now memory.entry.icons.now }
    {
        let Ok(lent) = memory.lent() else {
            return None;
        };
        if !checks_pass(self, settings, moment) {
            return None;
        }
        let passed = Checked { value: settings };
        // Not `?`: that copies the scan once more, and a byte takes 4 ns more.
        let Some(counted) = counted_fast(self, passed, Checked { value: moment }) else {
            return None;
        };
        if !settled(counted, settings, running) {
            return None;
        }
        // Not `retained`: as in byte.rt, that copies the scan once more, and a byte takes 1 to 2 ns more.
        if stays_shown(counted, page) {
            return Some(counted);
        }
        Some(latch_retained(counted, copied(settings), lent))
    }
}
