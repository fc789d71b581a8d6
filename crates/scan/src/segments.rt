// The active segments of a row as two words: its bits packed into planes, and what is active as a matter
// of these words.
ghost use Rattle.std.specs.Prelude.{◌≡◌, ◌+◌, ◌*◌, ◌^◌, ◌<◌, ◌≤◌};
ghost use Rattle.scan.specs.Latch.{shade_active, words as words_of};
ghost use Rattle.scan.specs.Segments.{bits_at, active_shades, row_active, mask_of, pick, active_word, row_words};

use crate::latch::ICON_ROW;
use crate::memory::Lent;
use crate::planes::{RowBits, shown_shade};
use crate::settings::Settings;
use crate::shade::pulse_width;
use crate::state::Scan;

// The activity of what the two bits of a segment show, by their number: it holds for a whole row. Four
// lines, as in paint.rt.
pub(crate) fn active_shades(scan: Scan, settings: Settings) -> [bool; 4]
    ensures { result ≡ active_shades scan settings }
{
    [
        shade_active(scan, settings, shown_shade(settings, 0)),
        shade_active(scan, settings, shown_shade(settings, 1)),
        shade_active(scan, settings, shown_shade(settings, 2)),
        shade_active(scan, settings, shown_shade(settings, 3)),
    ]
}

fn shade_active(scan: Scan, settings: Settings, shade: u8) -> bool
    ensures { result ≡ shade_active scan settings shade }
{
    scan.step < pulse_width(settings, shade, scan.frc, scan.pwm)
}

// All segments of a word, or none.
fn mask_of(on: bool) -> u64
    ensures { result ≡ mask_of on }
{
    if on { 0xffff_ffff_ffff_ffff } else { 0 }
}

// The bits of `on` where `by` has one, else those of `off`.
fn picked(by: u64, on: u64, off: u64) -> u64
    ensures { result ≡ pick by on off }
{
    off ^ (by & (on ^ off))
}

// The activity of a word's segments, from their two planes.
fn active_word(high: u64, low: u64, active: [bool; 4]) -> u64
    ensures { result ≡ active_word high low active }
{
    let off = picked(low, mask_of(active[1]), mask_of(active[0]));
    let on = picked(low, mask_of(active[3]), mask_of(active[2]));
    picked(high, on, off)
}

// The word with eight segments more below its others.
fn with_eight(word: u64, eight: u64) -> u64
    requires word_bound { word < 2 ^ 56 }
    requires eight_bound { eight < 256 }
    ensures { result ≡ eight + 256 * word }
{
    word * 256 + eight
}

// All segments from their bits: the planes of both words together, each from its high segments down.
fn both_words(bits: &RowBits, active: [bool; 4], reversed: bool) -> [u64; 2]
    ensures { result ≡ words_of (row_active active bits.now.bits reversed) }
{
    let mut high: u64 = 0;
    let mut low: u64 = 0;
    let mut high2: u64 = 0;
    let mut low2: u64 = 0;
    for left in (0..8).rev() {
        let first = bits.eight_planes(reversed, 8 * left);
        let second = bits.eight_planes(reversed, 8 * left + 64);
        high = with_eight(high, first % 256);
        low = with_eight(low, first / 256);
        high2 = with_eight(high2, second % 256);
        low2 = with_eight(low2, second / 256);
    }
    [
        active_word(high, low, active),
        active_word(high2, low2, active),
    ]
}

// The bits of a row of RAM, or of the icons. Rows go up to 128, segments stay below 128: two ranges, so that
// no type of one bounded number would do for both.
fn row_bits(row: u8, lent: Lent<'_>) -> RowBits
    requires { row ≤ 128 }
    ensures { result.bits ≡ bits_at row lent.entry.ram.now lent.entry.icons.now }
{
    if row == ICON_ROW {
        return RowBits::new(lent.icons, 0);
    }
    RowBits::of_ram(lent.ram, row)
}

// The latch of a row of RAM, or of the icons.
pub(crate) fn row_words(row: u8, active: [bool; 4], reversed: bool, lent: Lent<'_>) -> [u64; 2]
    requires { row ≤ 128 }
    ensures { result ≡ row_words row active reversed lent.entry.ram.now lent.entry.icons.now }
{
    both_words(&row_bits(row, lent), active, reversed)
}
