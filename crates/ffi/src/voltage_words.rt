// The voltages and the setting finder over words. The eight settings are bytes, in the order in
// which the original declares them: contrast, regulator, power control, booster, bias, temperature
// slope, contrast trim, OTP control.
ghost use Rattle.std.specs.Prelude.{◌≡◌};
ghost use Rattle.voltage.specs.Check.{valid_settings};
ghost use Rattle.voltage.specs.Answers.{answer_of};
ghost use Rattle.ffi.specs.Words.{status, stored};
ghost use Rattle.ffi.specs.VoltageWords.{settings_of, level_word, voltage_words, two_words, FinderAnswers};

use crate::words::{Words, put};
use voltage::finder::{Pair, find_setting};
use voltage::{LcdVoltages, Settings, Supply};

pub(crate) fn settings_of(bytes: &[u8; 8]) -> Settings
    ensures { result ≡ settings_of bytes.now }
{
    Settings {
        contrast: bytes[0],
        regulator: bytes[1],
        power_control: bytes[2],
        booster: bytes[3],
        bias: bytes[4],
        temperature_slope: bytes[5],
        contrast_trim: bytes[6],
        otp_control: bytes[7],
    }
}

// The word of no level: a level has 32 bits.
pub(crate) const NO_LEVEL: u64 = 0x1_0000_0000;

// A level, or that of an electrode.
pub(crate) fn level_word(level: Option<u32>) -> u64
    ensures { result ≡ level_word level }
{
    level.map_or(NO_LEVEL, u64::from)
}

impl Words for LcdVoltages {
    type Words = [u64; 7];

    ghost words = { voltage_words };

    fn words(self) -> [u64; 7] {
        [
            u64::from(self.target),
            level_word(self.pump),
            level_word(self.v0),
            level_word(self.v1),
            level_word(self.v2),
            level_word(self.v3),
            level_word(self.v4),
        ]
    }
}

// What the finder found.
impl Words for Pair {
    type Words = [u64; 2];

    ghost words = { two_words };

    fn words(self) -> [u64; 2] {
        [u64::from(self.regulator), u64::from(self.contrast)]
    }
}

// Whether every setting is in range.
pub fn nt7508_settings_valid(settings: &[u8; 8]) -> bool
    ensures { result ≡ valid_settings (settings_of settings.now) }
{
    settings_of(settings).valid()
}

// Target, pump and V0 to V4.
pub fn nt7508_voltages(settings: &[u8; 8], supply: Supply, out: &mut [u64; 7]) -> u64
    ensures answers { result ≡ status (answer_of (settings_of settings.now) supply) }
    ensures leaves { out.new ≡ stored voltage_words (answer_of (settings_of settings.now) supply) out.old }
{
    put(voltage::voltages(settings_of(settings), supply), out)
}

// Whether a pair of regulator and contrast has its target in the band, and one that has.
pub fn nt7508_find_setting(
    low: u32,
    high: u32,
    settings: &[u8; 8],
    temperature: i32,
    out: &mut [u64; 3],
) -> u64
    ensures { FinderAnswers (settings_of settings.now) temperature low high out.old result out.new }
{
    put(
        find_setting(settings_of(settings), temperature, low, high),
        out,
    )
}
