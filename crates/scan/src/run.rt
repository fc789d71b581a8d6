// The effect of a byte, a warm rise or a fall on the scan. Document 01, 'Scan'. The moment of a call is
// `moment` where memory is lent, since a clause reads lent memory by `now`.
ghost use Rattle.std.specs.Prelude.{◌≡◌};
ghost use Rattle.scan.specs.Check.{answered};
ghost use Rattle.scan.specs.Byte.{lines_stay, settled as settled_of};
ghost use Rattle.scan.specs.Run.{running_after, cleared as cleared_of, taken as taken_of, begun as begun_of, stopped as stopped_of, clocked as clocked_of, resumed as resumed_of, updated as updated_of, before_byte, after_byte, fall_scan, rise_scan};

use crate::check::{Refusal, check_lent, check_moment};
use crate::count::latest;
use crate::latch::{latch_retained, retained};
use crate::memory::{Lent, Memory};
use crate::settings::{Settings, frame_of, pwm_of, rate_of};
use crate::state::{Inversion, Latch, Scan, Ticking, start_clock, with_ticking};
use checks::Checked;
use clock::Time;

// The effect of a byte on the scan: it makes it run, leaves it running, or the scan does not run. Calls take it
// beside `page` and not in one struct: `before_byte` asks for the page alone, `after_byte` for this alone.
#[derive(Clone, Copy, Debug, PartialEq, Eq)]
pub enum Running {
    Begins,
    Continues,
    Stands,
}

impl Running {
    // By whether the scan ran before and runs after.
    pub fn after(was_running: bool, runs: bool) -> Self
        ensures { result ≡ running_after was_running runs }
    {
        if !runs {
            return Running::Stands;
        }
        if was_running {
            return Running::Continues;
        }
        Running::Begins
    }
}

// The scan with its line inversion ended, where the settings have none: an old interval must not
// flip the polarity before the next frame end.
fn cleared(scan: Checked<Scan>, settings: Settings) -> Checked<Scan>
    ensures { result.value ≡ cleared_of scan.value settings }
{
    if settings.inversion_lines != 0 {
        return scan;
    }
    let mut next = scan.value;
    next.inversion.lines = 0;
    next.inversion.count = 0;
    Checked { value: next }
}

// A scan at its beginning, with every setting taken and nothing latched yet.
fn taken(settings: Settings) -> Scan
    ensures { result ≡ taken_of settings }
{
    let frame = frame_of(settings);
    Scan {
        ticking: Ticking {
            clock: None,
            rate: rate_of(settings, frame),
        },
        latch: Latch {
            segments: [0; 2],
            latched: true,
        },
        frame,
        pwm: pwm_of(settings.gray_mode),
        row: 0,
        step: 0,
        frc: 0,
        inversion: Inversion {
            lines: settings.inversion_lines,
            count: 0,
            inverted: false,
        },
    }
}

// The scan that a byte makes run.
fn begun(settings: Checked<Settings>, lent: Lent<'_>) -> Checked<Scan>
    ensures { result.value ≡ begun_of settings.value lent.entry.ram.now lent.entry.icons.now }
{
    let taken = taken(settings.value);
    Checked {
        value: latch_retained(taken, settings.value, lent),
    }
}

// The counters stay.
fn stopped(scan: Scan) -> Scan
    ensures { result ≡ stopped_of scan }
{
    with_ticking(scan, None, scan.ticking.rate)
}

// A scan that runs: a missing clock starts at the moment, and oscillator control bit 0 drops it.
fn clocked(scan: Checked<Scan>, settings: Checked<Settings>, moment: Checked<Time>) -> Scan
    ensures { result ≡ clocked_of scan.value settings.value moment.value }
{
    if !settings.value.keeps_clock() {
        return stopped(scan.value);
    }
    if scan.value.ticking.clock.is_some() {
        return scan.value;
    }
    let rate = Checked {
        value: rate_of(settings.value, scan.value.frame),
    };
    with_ticking(scan.value, start_clock(moment, rate), rate.value)
}

// A scan that ran before: it goes on, or does not run any more. `runs` is a bool, since `rise` is handed one;
// `updated` writes out the two cases, since a match on Running has to have them anyway.
fn resumed(
    scan: Checked<Scan>,
    settings: Checked<Settings>,
    moment: Checked<Time>,
    runs: bool,
) -> Scan
    ensures { result ≡ resumed_of scan.value settings.value moment.value runs }
{
    let cleared = cleared(scan, settings.value);
    if runs {
        return clocked(cleared, settings, moment);
    }
    stopped(cleared.value)
}

// No line inversion is left to be ended.
fn lines_stay(inversion: Inversion, settings: Settings) -> bool
    ensures { result ≡ lines_stay inversion settings }
{
    (settings.inversion_lines != 0) | ((inversion.lines == 0) & (inversion.count == 0))
}

// Nothing is left to be begun, ended, started or dropped after a byte.
pub(crate) fn settled(scan: Scan, settings: Settings, running: Running) -> bool
    ensures { result ≡ settled_of scan settings running }
{
    let clocked = scan.ticking.clock.is_some();
    let stay = lines_stay(scan.inversion, settings);
    match running {
        Running::Begins => false,
        Running::Continues => stay & (clocked == settings.keeps_clock()),
        Running::Stands => stay & !clocked,
    }
}

// The scan after a byte. Most bytes leave a counted scan as it is, which costs less to find out than to do.
pub(crate) fn updated(
    scan: Checked<Scan>,
    settings: Checked<Settings>,
    moment: Checked<Time>,
    running: Running,
    lent: Lent<'_>,
) -> Scan
    ensures { result ≡ updated_of scan.value settings.value moment.value running lent.entry.ram.now lent.entry.icons.now }
{
    if settled(scan.value, settings.value, running) {
        return scan.value;
    }
    match running {
        Running::Begins => clocked(begun(settings, lent), settings, moment),
        Running::Continues => resumed(scan, settings, moment, true),
        Running::Stands => resumed(scan, settings, moment, false),
    }
}

impl Scan {
    // The scan as a byte has to find it: counted to its moment, and its latch retained where the byte
    // could alter the row being shown.
    pub fn before_byte(
        self,
        settings: Settings,
        moment: Time,
        page: Option<u8>,
        memory: Memory<'_>,
    ) -> Result<Scan, Refusal>
        ensures { answered self result ≡ before_byte self settings moment page memory.entry.ram.now memory.entry.icons.now }
    {
        let lent = check_lent(self, settings.valid(), moment, memory)?;
        let counted = latest(
            Checked { value: self },
            Checked { value: settings },
            Checked { value: moment },
        );
        Ok(retained(counted.value, settings, page, lent))
    }

    // The scan after a byte, with the settings and memory that it left.
    pub fn after_byte(
        self,
        settings: Settings,
        moment: Time,
        running: Running,
        memory: Memory<'_>,
    ) -> Result<Scan, Refusal>
        ensures { answered self result ≡ after_byte self settings moment running memory.entry.ram.now memory.entry.icons.now }
    {
        let lent = check_lent(self, settings.valid(), moment, memory)?;
        Ok(updated(
            Checked { value: self },
            Checked { value: settings },
            Checked { value: moment },
            running,
            lent,
        ))
    }

    // The scan after a fall of the supply: counted to its moment, and its clock dropped. The checks
    // are those of the count.
    pub fn fall(self, settings: Settings, now: Time) -> Result<Scan, Refusal>
        ensures { answered self result ≡ fall_scan self settings now }
    {
        let counted = self.count_to(settings, now)?;
        Ok(stopped(counted.scan))
    }

    // The scan after a warm rise of the supply, `runs` saying whether it runs. It counts as having
    // run before, so that none begins.
    pub fn rise(self, settings: Settings, now: Time, runs: bool) -> Result<Scan, Refusal>
        ensures { answered self result ≡ rise_scan self settings now runs }
    {
        check_moment(self, settings.valid(), now)?;
        Ok(resumed(
            Checked { value: self },
            Checked { value: settings },
            Checked { value: now },
            runs,
        ))
    }
}
