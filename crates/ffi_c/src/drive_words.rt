// The drive and its electrodes over words.
ghost use Rattle.std.specs.Prelude.{◌≡◌};
ghost use Rattle.scan.specs.Drive.{common_microvolts, segment_microvolts};
ghost use Rattle.checks.specs.Checks.{unless_refused};
ghost use Rattle.ffi.specs.Words.{check_status};
ghost use Rattle.ffi.specs.ClockWords.{time};
ghost use Rattle.ffi.specs.DriveWords.{conditions_of, driven_of, drive_words, drive_of};
ghost use Rattle.ffi.specs.VoltageWords.{level_word};

use clock::Time;
use scan::{Conditions, Memory};
use voltage::Supply;

#[unsafe(no_mangle)]
pub extern "C" fn nt7508_scan_drive(
    ram: &[u8],
    icons: &[u8],
    words: &[u64; 13],
    bytes: &[u8; 14],
    settings: &[u8; 20],
    analog: &[u8; 8],
    display_on: bool,
    oscillator_enabled: bool,
    millivolts: u16,
    temperature: i32,
    power_save: bool,
    waiting: bool,
    seconds: u64,
    fraction: u64,
    out: &mut [u64; 12],
    frame: &mut u16,
) -> u64
    ensures answers { result ≡ check_status (driven_of words.now bytes.now settings.now analog.now (conditions_of display_on oscillator_enabled millivolts temperature power_save waiting) (time seconds fraction) ram.now icons.now).0 }
    ensures leaves { out.new ≡ unless_refused (driven_of words.now bytes.now settings.now analog.now (conditions_of display_on oscillator_enabled millivolts temperature power_save waiting) (time seconds fraction) ram.now icons.now).0 (drive_words (driven_of words.now bytes.now settings.now analog.now (conditions_of display_on oscillator_enabled millivolts temperature power_save waiting) (time seconds fraction) ram.now icons.now).1.0) out.old }
    ensures frames { frame.new ≡ unless_refused (driven_of words.now bytes.now settings.now analog.now (conditions_of display_on oscillator_enabled millivolts temperature power_save waiting) (time seconds fraction) ram.now icons.now).0 (driven_of words.now bytes.now settings.now analog.now (conditions_of display_on oscillator_enabled millivolts temperature power_save waiting) (time seconds fraction) ram.now icons.now).1.1 frame.old }
{
    let conditions = Conditions {
        display_on,
        oscillator_enabled,
        supply: Supply {
            supply_millivolts: millivolts,
            temperature_millicelsius: temperature,
            power_save,
            waiting,
        },
    };
    ffi::drive_words::nt7508_scan_drive(
        Memory { ram, icons },
        words,
        bytes,
        settings,
        analog,
        conditions,
        Time { seconds, fraction },
        out,
        frame,
    )
}

#[unsafe(no_mangle)]
pub extern "C" fn nt7508_scan_common_microvolts(drive: &[u64; 12], common: u8) -> u64
    ensures { result ≡ level_word (common_microvolts (drive_of drive.now) common) }
{
    ffi::drive_words::nt7508_scan_common_microvolts(drive, common)
}

#[unsafe(no_mangle)]
pub extern "C" fn nt7508_scan_segment_microvolts(drive: &[u64; 12], segment: u8) -> u64
    ensures { result ≡ level_word (segment_microvolts (drive_of drive.now) segment) }
{
    ffi::drive_words::nt7508_scan_segment_microvolts(drive, segment)
}
