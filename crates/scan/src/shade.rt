// A shade's pulse width in a phase of the gray cycle.
ghost use Rattle.std.specs.Prelude.{◌≡◌};
ghost use Rattle.scan.specs.Shade.{palette_width, pulse_width};

use crate::settings::Settings;

// The nibble of the palette for a shade in a phase. There are four of each; any other has no width.
fn palette_width(palette: [u8; 8], shade: u8, phase: u8) -> u8
    ensures { result ≡ palette_width palette shade phase }
{
    let place = 2 * usize::from(shade) + usize::from(phase / 2);
    let byte = palette.get(place).copied().unwrap_or(0);
    if phase % 2 == 0 { byte % 16 } else { byte / 16 }
}

// The pulse width of a shade in a phase: encodings beyond the PWM width give no pulse.
pub(crate) fn pulse_width(settings: Settings, shade: u8, phase: u8, pwm: u8) -> u8
    ensures { result ≡ pulse_width settings shade phase pwm }
{
    let width = palette_width(settings.palette, shade, phase);
    if width <= pwm { width } else { 0 }
}
