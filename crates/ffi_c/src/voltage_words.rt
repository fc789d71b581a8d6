// The voltages and the setting finder over words.
ghost use Rattle.std.specs.Prelude.{◌≡◌};
ghost use Rattle.voltage.specs.Check.{valid_settings};
ghost use Rattle.voltage.specs.Answers.{answer_of};
ghost use Rattle.ffi.specs.Words.{status, stored};
ghost use Rattle.ffi.specs.VoltageWords.{settings_of, supply_of, voltage_words, FinderAnswers};

use voltage::Supply;

#[unsafe(no_mangle)]
pub extern "C" fn nt7508_settings_valid(settings: &[u8; 8]) -> bool
    ensures { result ≡ valid_settings (settings_of settings.now) }
{
    ffi::voltage_words::nt7508_settings_valid(settings)
}

#[unsafe(no_mangle)]
pub extern "C" fn nt7508_voltages(
    settings: &[u8; 8],
    millivolts: u16,
    temperature: i32,
    power_save: bool,
    waiting: bool,
    out: &mut [u64; 7],
) -> u64
    ensures answers { result ≡ status (answer_of (settings_of settings.now) (supply_of millivolts temperature power_save waiting)) }
    ensures leaves { out.new ≡ stored voltage_words (answer_of (settings_of settings.now) (supply_of millivolts temperature power_save waiting)) out.old }
{
    let supply = Supply {
        supply_millivolts: millivolts,
        temperature_millicelsius: temperature,
        power_save,
        waiting,
    };
    ffi::voltage_words::nt7508_voltages(settings, supply, out)
}

#[unsafe(no_mangle)]
pub extern "C" fn nt7508_find_setting(
    low: u32,
    high: u32,
    settings: &[u8; 8],
    temperature: i32,
    out: &mut [u64; 3],
) -> u64
    ensures { FinderAnswers (settings_of settings.now) temperature low high out.old result out.new }
{
    ffi::voltage_words::nt7508_find_setting(low, high, settings, temperature, out)
}
