// The setting finder: a regulator and contrast setting whose target lies in a band.
ghost use Rattle.std.specs.Prelude.{◌≡◌, ◌+◌, ◌*◌, ◌^◌, ◌<◌, ◌≤◌};
ghost use Rattle.voltage.specs.Voltage.{rounded};
ghost use Rattle.voltage.specs.Finder.{in_band, Says};

use crate::target::{base_of, gain_of, microvolts_of, temperature_factor};
use crate::{Refusal, Settings};
use checks::Checked;

// A regulator and a contrast setting.
#[derive(Clone, Copy, Debug, PartialEq, Eq)]
pub struct Pair {
    pub regulator: u8,
    pub contrast: u8,
}

// Whether the target with this contrast lies in the band, `scaled` being t x gain and `base` what
// the contrast is added to. The band is two numbers and no struct: C hands them as two, and this alone
// reads both.
fn in_band(low: u32, high: u32, scaled: u64, base: u64, contrast: u8) -> bool
    requires scaled_bound { scaled < 2 ^ 49 }
    requires base_bound { base ≤ 154 }
    requires contrast_bound { contrast < 64 }
    ensures { result ≡ in_band low high (rounded (scaled * (base + contrast))) }
{
    let v = microvolts_of(scaled, base + u64::from(contrast));
    (low <= v) & (v <= high)
}

// A regulator and contrast setting whose target under this temperature and the other settings lies
// from `low` to `high`, or None where none of the 512 pairs has one. The lowest regulator comes
// first, then the lowest contrast. Any setting out of range is refused; of settings in range only
// slope, trim and OTP control matter.
pub fn find_setting(
    settings: Settings,
    temperature: i32,
    low: u32,
    high: u32,
) -> Result<Option<Pair>, Refusal>
    ensures { Says settings temperature low high result }
{
    let settings = Checked::new(settings)?;
    let factor = temperature_factor(settings.value.temperature_slope, temperature);
    let base = base_of(settings);
    for regulator in 0..8u8 {
        let scaled = factor * gain_of(regulator);
        for contrast in 0..64u8 {
            if in_band(low, high, scaled, base, contrast) {
                return Ok(Some(Pair {
                    regulator,
                    contrast,
                }));
            }
        }
    }
    Ok(None)
}
