// The output latch: which of the 128 segments are active in the present quantum, and when the latch
// is retained because memory or settings are about to change. Document 01, 'Scan'.
ghost use Rattle.std.specs.Prelude.{◌≡◌};
ghost use Rattle.scan.specs.Latch.{latched_row, present_latch, shown as shown_of, affects, latch_retained, retained as retained_of};
ghost use Rattle.scan.specs.Byte.{stays_shown};

use crate::memory::Lent;
use crate::segments::{active_shades, row_words};
use crate::settings::Settings;
use crate::state::{Latch, Scan};

// The row of the icons, by the chip's own numbering: RAM has the rows 0 to 127.
pub(crate) const ICON_ROW: u8 = 128;

pub(crate) fn latched_row(scan: Scan) -> u8
    ensures { result ≡ latched_row scan }
{
    if scan.row == scan.frame.duty {
        return ICON_ROW;
    }
    (scan.frame.start_line % 128 + scan.row % 128) % 128
}

// The latch of present memory and settings.
fn present_latch(scan: Scan, settings: Settings, lent: Lent<'_>) -> [u64; 2]
    ensures { result ≡ present_latch scan settings lent.entry.ram.now lent.entry.icons.now }
{
    let active = active_shades(scan, settings);
    row_words(latched_row(scan), active, settings.segment_reverse, lent)
}

// The segments shown: the latch that is retained, or else the present one.
pub(crate) fn shown(scan: Scan, settings: Settings, lent: Lent<'_>) -> [u64; 2]
    ensures { result ≡ shown_of scan settings lent.entry.ram.now lent.entry.icons.now }
{
    if scan.latch.latched {
        return scan.latch.segments;
    }
    present_latch(scan, settings, lent)
}

// Whether a byte could alter what a row shows: `page` is where a data byte goes, none for a command. Page
// 16 is that of the icons, as the chip numbers its pages.
fn affected(page: Option<u8>, row: u8) -> bool
    ensures { result ≡ affects page row }
{
    match page {
        None => true,
        Some(16) => row == ICON_ROW,
        Some(number) => (row != ICON_ROW) & (row / 8 == number % 16),
    }
}

// The latch need not be retained before a byte.
pub(crate) fn stays_shown(scan: Scan, page: Option<u8>) -> bool
    ensures { result ≡ stays_shown scan page }
{
    scan.latch.latched | !affected(page, latched_row(scan))
}

// The scan with the present latch retained.
pub(crate) fn latch_retained(scan: Scan, settings: Settings, lent: Lent<'_>) -> Scan
    ensures { result ≡ latch_retained scan settings lent.entry.ram.now lent.entry.icons.now }
{
    let segments = present_latch(scan, settings, lent);
    // Not `Scan { latch, ..scan }`: that copies field by field, and a byte takes some 20 ns more.
    let mut next = scan;
    next.latch = Latch {
        segments,
        latched: true,
    };
    next
}

// The same, where a byte could alter the row being shown.
pub(crate) fn retained(scan: Scan, settings: Settings, page: Option<u8>, lent: Lent<'_>) -> Scan
    ensures { result ≡ retained_of scan settings page lent.entry.ram.now lent.entry.icons.now }
{
    if stays_shown(scan, page) {
        return scan;
    }
    latch_retained(scan, settings, lent)
}
