// The drive and its electrodes over words. A drive is 12 words: the selected common, or 129; the two
// words of the segments; whether it is inverted, and grounded; then the seven words of its voltages.
ghost use Rattle.std.specs.Prelude.{◌≡◌};
ghost use Rattle.scan.specs.Drive.{common_microvolts, segment_microvolts};
ghost use Rattle.checks.specs.Checks.{unless_refused};
ghost use Rattle.ffi.specs.Words.{check_status};
ghost use Rattle.ffi.specs.DriveWords.{driven_of, driven_by, drive_words, common_of, level_of, drive_of};
ghost use Rattle.ffi.specs.VoltageWords.{level_word};

use crate::scan_words::{scan_of, settings_of};
use crate::voltage_words::{NO_LEVEL, level_word};
use crate::words::Words;
use checks::Numbered;
use clock::Time;
use scan::{Conditions, Driven, LcdDrive, Memory};
use voltage::LcdVoltages;

// The word of no common: the commons are 0 to 128.
pub const NO_COMMON: u64 = 129;

impl Words for LcdDrive {
    type Words = [u64; 12];

    ghost words = { drive_words };

    fn words(self) -> [u64; 12] {
        let v = self.voltages.words();
        [
            self.common.map_or(NO_COMMON, u64::from),
            self.segments[0],
            self.segments[1],
            u64::from(self.inverted),
            u64::from(self.grounded),
            v[0],
            v[1],
            v[2],
            v[3],
            v[4],
            v[5],
            v[6],
        ]
    }
}

// A drive and its frame length go out, and a refusal leaves what is there. Not by `put`, since the C interface lends
// the two apart.
pub(crate) fn put_drive<R: Numbered>(
    answer: Result<Driven, R>,
    out: &mut [u64; 12],
    frame: &mut u16,
) -> u64
    ensures answers { result ≡ check_status (driven_by R.number answer).0 }
    ensures leaves { out.new ≡ unless_refused (driven_by R.number answer).0 (drive_words (driven_by R.number answer).1.0) out.old }
    ensures frames { frame.new ≡ unless_refused (driven_by R.number answer).0 (driven_by R.number answer).1.1 frame.old }
{
    match answer {
        Ok(driven) => {
            *out = driven.drive.words();
            *frame = driven.frame;
            0
        }
        Err(refusal) => refusal.number(),
    }
}

fn common_of(word: u64) -> Option<u8>
    ensures { result ≡ common_of word }
{
    (word < NO_COMMON).then_some((word % 256) as u8)
}

fn level_of(word: u64) -> Option<u32>
    ensures { result ≡ level_of word }
{
    (word < NO_LEVEL).then_some((word % 0x1_0000_0000) as u32)
}

fn drive_of(w: &[u64; 12]) -> LcdDrive
    ensures { result ≡ drive_of w.now }
{
    LcdDrive {
        common: common_of(w[0]),
        segments: [w[1], w[2]],
        inverted: w[3] != 0,
        voltages: LcdVoltages {
            pump: level_of(w[6]),
            target: (w[5] % 0x1_0000_0000) as u32,
            v0: level_of(w[7]),
            v1: level_of(w[8]),
            v2: level_of(w[9]),
            v3: level_of(w[10]),
            v4: level_of(w[11]),
        },
        grounded: w[4] != 0,
    }
}

// The drive at a moment, and the frame of the scan shown (duty x PWM; 0 where undriven).
pub fn nt7508_scan_drive(
    memory: Memory<'_>,
    words: &[u64; 13],
    bytes: &[u8; 14],
    settings: &[u8; 20],
    analog: &[u8; 8],
    conditions: Conditions,
    moment: Time,
    out: &mut [u64; 12],
    frame: &mut u16,
) -> u64
    ensures answers { result ≡ check_status (driven_of words.now bytes.now settings.now analog.now conditions moment memory.entry.ram.now memory.entry.icons.now).0 }
    ensures leaves { out.new ≡ unless_refused (driven_of words.now bytes.now settings.now analog.now conditions moment memory.entry.ram.now memory.entry.icons.now).0 (drive_words (driven_of words.now bytes.now settings.now analog.now conditions moment memory.entry.ram.now memory.entry.icons.now).1.0) out.old }
    ensures frames { frame.new ≡ unless_refused (driven_of words.now bytes.now settings.now analog.now conditions moment memory.entry.ram.now memory.entry.icons.now).0 (driven_of words.now bytes.now settings.now analog.now conditions moment memory.entry.ram.now memory.entry.icons.now).1.1 frame.old }
{
    let driven = scan::drive::drive(
        scan_of(words, bytes),
        settings_of(settings),
        crate::voltage_words::settings_of(analog),
        conditions,
        moment,
        memory,
    );
    put_drive(driven, out, frame)
}

// The voltage of a common in a drive, in microvolts, or 2^32 for none.
pub fn nt7508_scan_common_microvolts(drive: &[u64; 12], common: u8) -> u64
    ensures { result ≡ level_word (common_microvolts (drive_of drive.now) common) }
{
    level_word(drive_of(drive).common_microvolts(common))
}

// The voltage of a segment in a drive, in microvolts, or 2^32 for none.
pub fn nt7508_scan_segment_microvolts(drive: &[u64; 12], segment: u8) -> u64
    ensures { result ≡ level_word (segment_microvolts (drive_of drive.now) segment) }
{
    level_word(drive_of(drive).segment_microvolts(segment))
}
