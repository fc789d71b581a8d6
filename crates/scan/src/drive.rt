// The drive: the levels that the electrodes of the glass get at a moment, and the voltage of each
// electrode. Document 01, 'Drive, electrodes, image'.
ghost use Rattle.std.specs.Prelude.{◌≡◌, ◌<◌};
ghost use Rattle.voltage.specs.Voltage.{voltages};
ghost use Rattle.scan.specs.Drive.{off, runs as runs_by, driven as driven_by, grounded as grounded_by, common_of, undriven as undriven_of, drive_of, drive_at, quanta_of, frame_at, answered_drive, drive_scan, common_level, segment_level, active_in, common_microvolts, segment_microvolts};

use crate::check::{Refusal, check_lent};
use crate::count::{counted_to, is_due};
use crate::latch::shown;
use crate::memory::{Lent, Memory};
use crate::settings::Settings;
use crate::state::Scan;
use checks::Checked;
use clock::Time;
use voltage::{LcdVoltages, Supply};

// The conditions, besides the settings, that decide whether the glass is driven.
#[derive(Clone, Copy, Debug, PartialEq, Eq)]
pub struct Conditions {
    pub display_on: bool,
    pub oscillator_enabled: bool,
    pub supply: Supply,
}

// `common` is the common that is selected, 128 that of the icons. Bit n % 64 of word n / 64 is segment n, active relative to the selected common. With `grounded`
// every electrode is at 0.
#[derive(Clone, Copy, Debug, PartialEq, Eq)]
pub struct LcdDrive {
    pub voltages: LcdVoltages,
    pub common: Option<u8>,
    pub inverted: bool,
    pub grounded: bool,
    pub segments: [u64; 2],
}

// The drive and the frame of the scan shown, in quanta: duty x PWM. Undriven it is 0 and no None: the C
// interface and the definition show a number, and `common` is None there.
#[derive(Clone, Copy, Debug, PartialEq, Eq)]
pub struct Driven {
    pub drive: LcdDrive,
    pub frame: u16,
}

impl Conditions {
    // The two voltages below are rules of their own: the glass is driven from 2,400 mV, and the chip works, and
    // so grounds the electrodes, from 1,650 mV.

    // Whether the scan runs.
    pub fn runs(self) -> bool
        ensures { result ≡ runs_by self }
    {
        self.oscillator_enabled & !self.supply.power_save
    }

    pub fn driven(self) -> bool
        ensures { result ≡ driven_by self }
    {
        (2400 <= self.supply.supply_millivolts)
            & !self.supply.waiting
            & self.display_on
            & !self.supply.power_save
            & self.oscillator_enabled
    }

    // Power save grounds every electrode, where there is a supply.
    fn grounded(self) -> bool
        ensures { result ≡ grounded_by self }
    {
        self.supply.power_save & (1650 <= self.supply.supply_millivolts) & !self.supply.waiting
    }
}

// 128 is the common of the icons, by the chip's own numbering.
fn common_of(scan: Scan) -> u8
    ensures { result ≡ common_of scan }
{
    if scan.row == scan.frame.duty {
        return 128;
    }
    let common = (scan.frame.initial_com % 128 + scan.row % 128) % 128;
    if scan.frame.common_reverse {
        return 127 - common;
    }
    common
}

fn undriven(conditions: Conditions, voltages: LcdVoltages) -> LcdDrive
    ensures { result ≡ undriven_of conditions voltages }
{
    LcdDrive {
        voltages,
        grounded: conditions.grounded(),
        ..LcdDrive::OFF
    }
}

// The drive of a scan that is counted to the moment.
fn drive_of(scan: Scan, settings: Settings, voltages: LcdVoltages, lent: Lent<'_>) -> LcdDrive
    ensures { result ≡ drive_of scan settings voltages lent.entry.ram.now lent.entry.icons.now }
{
    LcdDrive {
        common: Some(common_of(scan)),
        segments: shown(scan, settings, lent),
        inverted: scan.inversion.inverted,
        voltages,
        grounded: false,
    }
}

// The quanta in a frame of the scan.
fn quanta_of(scan: Scan) -> u16
    ensures { result ≡ quanta_of scan }
{
    u16::from(scan.frame.duty) * u16::from(scan.pwm)
}

// The drive and the frame of a scan that is counted to the moment. Not inline: a scan whose fields are read where
// it is copied is copied in parts, and what then reads the copy waits.
#[inline(never)]
fn driven_of(scan: &Scan, settings: Settings, voltages: LcdVoltages, lent: Lent<'_>) -> Driven
    ensures { result ≡ record { drive = drive_of scan.now settings voltages lent.entry.ram.now lent.entry.icons.now; frame = quanta_of scan.now } }
{
    Driven {
        drive: drive_of(*scan, settings, voltages, lent),
        frame: quanta_of(*scan),
    }
}

fn driven_at(
    scan: Checked<Scan>,
    settings: Checked<Settings>,
    voltages: LcdVoltages,
    conditions: Conditions,
    moment: Checked<Time>,
    lent: Lent<'_>,
) -> Driven
    ensures { result ≡ record { drive = drive_at scan.value settings.value voltages conditions moment.value lent.entry.ram.now lent.entry.icons.now; frame = frame_at scan.value settings.value conditions moment.value } }
{
    if !conditions.driven() {
        return Driven {
            drive: undriven(conditions, voltages),
            frame: 0,
        };
    }
    if !is_due(&scan, moment.value) {
        return driven_of(&scan.value, settings.value, voltages, lent);
    }
    let counted = counted_to(scan, settings, moment);
    driven_of(&counted, settings.value, voltages, lent)
}

// The levels of settings that passed, which are not refused.
fn levels_of(analog: Checked<voltage::Settings>, supply: Supply) -> LcdVoltages
    ensures { result ≡ voltages analog.value supply }
{
    voltage::voltages(analog.value, supply).unwrap()
}

// The drive at a moment. The scan itself is left where it was. Inline: over words the scan's drive was 5 to 8 ns faster
// so, and the controller's as fast.
#[inline(always)]
pub fn drive(
    scan: Scan,
    settings: Settings,
    analog: voltage::Settings,
    conditions: Conditions,
    moment: Time,
    memory: Memory<'_>,
) -> Result<Driven, Refusal>
    ensures { answered_drive result ≡ drive_scan scan settings analog conditions moment memory.entry.ram.now memory.entry.icons.now }
{
    let settings_ok = settings.valid() & analog.valid();
    let lent = check_lent(scan, settings_ok, moment, memory)?;
    let levels = levels_of(Checked { value: analog }, conditions.supply);
    Ok(driven_at(
        Checked { value: scan },
        Checked { value: settings },
        levels,
        conditions,
        Checked { value: moment },
        lent,
    ))
}

// The level of a common in microvolts; None where it has none.
fn common_level(voltages: LcdVoltages, selected: bool, inverted: bool) -> Option<u32>
    ensures { result ≡ common_level voltages selected inverted }
{
    match (selected, inverted) {
        (true, true) => Some(0),
        (true, false) => voltages.v0,
        (false, true) => voltages.v1,
        (false, false) => voltages.v4,
    }
}

// The same of a segment.
fn segment_level(voltages: LcdVoltages, active: bool, inverted: bool) -> Option<u32>
    ensures { result ≡ segment_level voltages active inverted }
{
    match (active, inverted) {
        (true, true) => voltages.v0,
        (true, false) => Some(0),
        (false, true) => voltages.v2,
        (false, false) => voltages.v3,
    }
}

// Whether a segment is active in the two words of a latch.
fn active_in(words: [u64; 2], segment: u8) -> bool
    requires { segment < 128 }
    ensures { result ≡ active_in words segment }
{
    (words[usize::from(segment / 64)] >> (segment % 64)) % 2 == 1
}

impl LcdDrive {
    // Nothing is driven.
    pub const OFF: LcdDrive = LcdDrive {
        common: None,
        segments: [0; 2],
        inverted: false,
        voltages: LcdVoltages::OFF,
        grounded: false,
    };

    // The voltage of a common in microvolts; None where it has no level or there is no such common.
    pub fn common_microvolts(self, common: u8) -> Option<u32>
        ensures { result ≡ common_microvolts self common }
    {
        if common > 128 {
            return None;
        }
        if self.grounded {
            return Some(0);
        }
        let selected = self.common?;
        common_level(self.voltages, selected == common, self.inverted)
    }

    // The same of a segment.
    pub fn segment_microvolts(self, segment: u8) -> Option<u32>
        ensures { result ≡ segment_microvolts self segment }
    {
        if segment > 127 {
            return None;
        }
        if self.grounded {
            return Some(0);
        }
        self.common?;
        segment_level(
            self.voltages,
            active_in(self.segments, segment),
            self.inverted,
        )
    }
}

// Ties the constant to its definition.
#[tactic(auto, unfolding(crate::specs::Drive::off))]
fn off_drive() -> LcdDrive
    ensures { result ≡ off }
{
    LcdDrive::OFF
}
