// The target of the regulator in microvolts, from the temperature, the contrast with its trim, and
// the gain. The finder computes the three parts once each, so each part is a function of its own.
ghost use Rattle.std.specs.Prelude.{◌≡◌, ◌+◌, ◌*◌, ◌-◌, ◌^◌, ◌<◌, ◌≤◌, pos, ◌+ℤ◌};
ghost use Rattle.voltage.specs.Check.{has_bit};
ghost use Rattle.voltage.specs.Voltage.{temperature_factor, trim, gain, rounded, target};

use crate::Settings;
use checks::Checked;

// The gain by regulator setting.
const GAIN: [u16; 8] = [345, 450, 555, 660, 765, 870, 975, 1080];

pub(crate) fn has_bit(x: u8, k: u8) -> bool
    requires { k < 8 }
    ensures { result ≡ has_bit x k }
{
    (x >> k) % 2 == 1
}

// The temperature counted from the lowest that the type holds, so that no later step has a sign.
fn from_lowest(temperature: i32) -> u32
    ensures { pos result ≡ temperature +ℤ pos 2147483648 }
{
    (i64::from(temperature) + 2_147_483_648) as u32
}

// 100,000,000 at 25,000 millidegrees (2,147,508,648 from the lowest), `c` less for each more, and
// never below 0.
fn falling(above: u32, c: u64) -> u64
    requires { c ≤ 125 }
    ensures { result ≡ 100000000 + 2147508648 * c - above * c }
{
    let top = 100_000_000 + 2_147_508_648 * c;
    top.saturating_sub(u64::from(above) * c)
}

// The temperature factor t. The coefficient goes by the slope setting.
pub(crate) fn temperature_factor(slope: u8, temperature: i32) -> u64
    ensures exact { result ≡ temperature_factor slope temperature }
    ensures small { result < 2 ^ 38 }
{
    let above = from_lowest(temperature);
    if slope == 0 {
        return falling(above, 125);
    }
    falling(above, 50)
}

// The number to which the contrast is added: 147 and the trim.
#[tactic(auto, using(crate::proofs::Checks::trim_passed), unfolding(crate::specs::Voltage::trim))]
pub(crate) fn base_of(settings: Checked<Settings>) -> u64
    ensures exact { pos result ≡ pos 147 +ℤ trim settings.value.otp_control settings.value.contrast_trim }
    ensures small { result ≤ 154 }
{
    if !has_bit(settings.value.otp_control, 0) {
        return 147;
    }
    let offset = u64::from(settings.value.contrast_trim);
    if offset < 8 {
        return 147 + offset;
    }
    // 8 to 15 mean -8 to -1
    147 + offset - 16
}

// The gain, by a regulator setting that was checked.
#[tactic(auto, unfolding(crate::specs::Voltage::gain))]
pub(crate) fn gain_of(regulator: u8) -> u64
    requires { regulator < 8 }
    ensures exact { result ≡ gain regulator }
    ensures small { result ≤ 1080 }
{
    u64::from(GAIN[usize::from(regulator)])
}

// The microvolts of t x gain x e, to the nearest, and the largest u32 where they are more.
#[tactic(auto, unfolding(crate::specs::Voltage::rounded))]
pub(crate) fn microvolts_of(scaled: u64, e: u64) -> u32
    requires scaled_bound { scaled < 2 ^ 49 }
    requires e_bound { e < 256 }
    ensures { result ≡ rounded (scaled * e) }
{
    u32::try_from((scaled * e + 750_000) / 1_500_000).unwrap_or(u32::MAX)
}

pub(crate) fn target_of(settings: Checked<Settings>, temperature: i32) -> u32
    ensures { result ≡ target settings.value temperature }
{
    let base = base_of(settings);
    let settings = settings.value;
    let factor = temperature_factor(settings.temperature_slope, temperature);
    let scaled = factor * gain_of(settings.regulator);
    microvolts_of(scaled, base + u64::from(settings.contrast))
}
