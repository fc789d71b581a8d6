// The gray image of the glass: each pixel's drive over a whole gray cycle, from 0 to 255, by the
// present settings. paint.rt paints its rows.
ghost use Rattle.std.specs.Prelude.{◌≡◌, ◌<◌, length};
ghost use Rattle.scan.specs.Settings.{frc_count_of};
ghost use Rattle.scan.specs.Check.{refused, check_image};
ghost use Rattle.scan.specs.Image.{lit_by, cycle_of, widths, level_of, glass_common, line_of, ram_row_of, rendered};

use crate::check::{Refusal, check_image};
use crate::memory::Memory;
use crate::paint::paint;
use crate::settings::{Settings, frc_count_of, pwm_of};
use crate::shade::pulse_width;

pub const LCD_WIDTH: usize = 96;

pub const LCD_HEIGHT: usize = 64;

// A byte for each pixel.
pub const IMAGE_BYTES: usize = LCD_WIDTH * LCD_HEIGHT;

// Whether the glass shows anything.
fn lit_by(settings: Settings, driven: bool) -> bool
    ensures { result ≡ lit_by settings driven }
{
    driven & settings.keeps_clock()
}

// A shade's widths, summed over the phases of the gray cycle.
fn width_sum(settings: Settings, shade: u8) -> u16
    ensures { result ≡ widths settings shade (frc_count_of settings.gray_mode) }
{
    let pwm = pwm_of(settings.gray_mode);
    let mut sum = 0;
    for phase in 0..frc_count_of(settings.gray_mode) {
        sum += u16::from(pulse_width(settings, shade, phase, pwm));
    }
    sum
}

// The quanta of a row in a whole gray cycle.
fn cycle_of(settings: Settings) -> u16
    ensures { result ≡ cycle_of settings }
{
    u16::from(pwm_of(settings.gray_mode)) * u16::from(frc_count_of(settings.gray_mode))
}

// The mean drive of a shade, rounded to the nearest.
pub(crate) fn level_of(settings: Settings, shade: u8) -> u8
    ensures { result ≡ level_of settings shade }
{
    let cycle = cycle_of(settings);
    let sum = width_sum(settings, shade);
    ((255 * sum + cycle / 2) / cycle) as u8
}

// The common of a glass row.
fn glass_common(reversed: bool, y: u8) -> u16
    ensures { result ≡ glass_common reversed y }
{
    let y = u16::from(y);
    if reversed {
        95u16.saturating_sub(y)
    } else {
        32 + y
    }
}

// The line of the scan that drives a glass row.
pub(crate) fn line_of(settings: Settings, y: u8) -> u8
    ensures { result ≡ line_of settings y }
{
    let common = glass_common(settings.common_reverse, y);
    ((common + 128).saturating_sub(u16::from(settings.initial_com)) % 128) as u8
}

// The row of RAM that a line shows.
pub(crate) fn ram_row_of(settings: Settings, line: u8) -> u8
    ensures value { result ≡ ram_row_of settings line }
    ensures upper_bound { result < 128 }
{
    ((u16::from(line) + u16::from(settings.start_line)) % 128) as u8
}

// The whole image into 6,144 lent bytes.
pub fn render(
    settings: Settings,
    driven: bool,
    memory: Memory<'_>,
    image: &mut [u8],
) -> Result<(), Refusal>
    ensures result_value { refused result ≡ check_image settings memory.entry.ram.now memory.entry.icons.now (length image.old) }
    ensures image_after { image.new ≡ rendered settings driven memory.entry.ram.now memory.entry.icons.now image.old }
{
    let lent = check_image(settings, memory, image.len())?;
    paint(settings, lit_by(settings, driven), lent.ram, image);
    Ok(())
}
