// The rows of the gray image painted: a row by itself, from its bits and from the levels of what two of
// them show, and the image row after row.
ghost use Rattle.std.specs.Prelude.{◌≡◌, length};
ghost use Rattle.scan.specs.Image.{up_to, image_row, rows_up_to};
ghost use Rattle.scan.specs.Paint.{levels_of, row_level};

use crate::image::{LCD_HEIGHT, LCD_WIDTH, level_of, line_of, ram_row_of};
use crate::memory::Ram;
use crate::planes::{RowBits, shown_shade};
use crate::settings::Settings;

// The levels of what the two bits of a segment show, by their number: worked out once for all pixels.
// Four lines: whether a `map` of [0, 1, 2, 3] can be proved is open.
fn levels_of(settings: Settings) -> [u8; 4]
    ensures { result ≡ levels_of settings }
{
    [
        level_of(settings, shown_shade(settings, 0)),
        level_of(settings, shown_shade(settings, 1)),
        level_of(settings, shown_shade(settings, 2)),
        level_of(settings, shown_shade(settings, 3)),
    ]
}

// A row from its bits.
fn paint_bits(bits: &RowBits, reversed: bool, levels: [u8; 4], row: &mut [u8])
    requires { length row.old ≡ 96 }
    ensures { row.new ≡ up_to (row_level levels bits.now.bits reversed) 96 }
{
    for (x, pixel) in row.iter_mut().enumerate() {
        *pixel = levels[bits.planes(reversed, x)];
    }
}

// One glass row.
pub(crate) fn paint_row(
    settings: Settings,
    lit: bool,
    levels: [u8; 4],
    ram: &Ram,
    y: u8,
    row: &mut [u8],
)
    requires levels_value { levels ≡ levels_of settings }
    requires row_len { length row.old ≡ 96 }
    ensures { row.new ≡ image_row settings lit ram.now y }
{
    let line = line_of(settings, y);
    if lit & (line < settings.duty) {
        let bits = RowBits::of_ram(ram, ram_row_of(settings, line));
        paint_bits(&bits, settings.segment_reverse, levels, row);
    } else {
        row.fill(0);
    }
}

// All glass rows.
pub(crate) fn paint(settings: Settings, lit: bool, ram: &Ram, image: &mut [u8])
    requires { length image.old ≡ 6144 }
    ensures { image.new ≡ rows_up_to (image_row settings lit ram.now) 64 }
{
    let levels = levels_of(settings);
    // By index: of what is written through `chunks_exact_mut` a proof knows only the length.
    for y in 0..LCD_HEIGHT {
        let at = y * LCD_WIDTH;
        paint_row(
            settings,
            lit,
            levels,
            ram,
            y as u8,
            &mut image[at..at + LCD_WIDTH],
        );
    }
}
